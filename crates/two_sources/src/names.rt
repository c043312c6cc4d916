//! The names of a node and of links that are made.
ghost use Rattle.std.specs.Prelude.{◌≡◌, IfOk};
ghost use Rattle.std.specs.List.{list_any};
ghost use Rattle.std.specs.Str.{bytes_eq};
ghost use Rattle.net_model.specs.Name.{IsName};
ghost use Rattle.net_reader.specs.Bundles.{made_name, made_names};

use itoa::Buffer;
use net_model::{LONGEST_NAME, Name, NameFault};
use std::alloc::{AllocError, Global};

/// The name of bytes that are one.
pub(crate) fn name(alloc: Global, bytes: &[u8]) -> Result<Name, AllocError>
    requires { IsName bytes.now }
    ensures { IfOk result (λ name. name ≡ bytes.now) }
{
    match Name::of(alloc, bytes) {
        Ok(name) => Ok(name),
        Err(NameFault::OutOfMemory) => Err(AllocError),
        Err(NameFault::BadName) => unreachable!(),
    }
}

/// The name of a link of a bundle.
pub(crate) fn made_name(alloc: Global, bundle: &[u8], number: u32) -> Result<Name, AllocError>
    requires { IsName (made_name bundle.now number) }
    ensures { IfOk result (λ name. name ≡ made_name bundle.now number) }
{
    let mut digits = Buffer::new();
    let digits = digits.format(number).as_bytes();
    let mut made = Vec::with_capacity(alloc, LONGEST_NAME)?;
    made.extend_from_slice(bundle)?;
    made.push(b'.')?;
    made.extend_from_slice(digits)?;
    name(alloc, &made)
}

// Whether a name is that of a link of a bundle.
fn is_made_name(name: &[u8], bundle: &[u8], number: u32) -> bool
    ensures { result ≡ bytes_eq name.now (made_name bundle.now number) }
{
    let mut digits = Buffer::new();
    let digits = digits.format(number).as_bytes();
    let Some(behind) = name.strip_prefix(bundle) else {
        return false;
    };
    let Some(text) = behind.strip_prefix(b".") else {
        return false;
    };
    text == digits
}

/// Whether a name is one of those of a bundle of so many links. It takes no memory.
pub(crate) fn is_among_made(name: &[u8], bundle: &[u8], count: u32) -> bool
    ensures { result ≡ list_any (bytes_eq name.now) (made_names bundle.now count) }
{
    for before in 0..count {
        if is_made_name(name, bundle, before + 1) {
            return true;
        }
    }
    false
}
