//! Bytes by their names.
use std::alloc::Global;

/// Bytes with a name: a file with its path, or what stands for a name of a `for` or of a `let`.
#[derive(Drop)]
pub struct Named {
    pub name: Vec<u8>,
    pub bytes: Vec<u8>,
}

/// The bytes of a name, the last ones where there are several.
pub fn found<'a>(among: &'a [Named], name: &[u8]) -> Option<&'a [u8]> {
    let mut last = None;
    for named in among {
        if named.name.as_slice() == name {
            last = Some(named.bytes.as_slice());
        }
    }
    last
}

/// Adds bytes with a name, and answers whether there was memory for it.
pub fn add(alloc: Global, among: &mut Vec<Named>, name: &[u8], bytes: Vec<u8>) -> bool {
    match Vec::from_slice(alloc, name) {
        Ok(name) => among.push(Named { name, bytes }).is_ok(),
        Err(_) => false,
    }
}

/// The same of bytes that are lent.
pub fn add_copy(alloc: Global, among: &mut Vec<Named>, name: &[u8], bytes: &[u8]) -> bool {
    match Vec::from_slice(alloc, bytes) {
        Ok(bytes) => add(alloc, among, name, bytes),
        Err(_) => false,
    }
}

/// Takes away what has a name.
pub fn remove(among: &mut Vec<Named>, name: &[u8]) {
    among.retain(|named| named.name.as_slice() != name);
}
