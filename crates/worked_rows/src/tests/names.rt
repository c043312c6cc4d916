//! Names that are taken, and one that is refused.
use net_model::{Name, NameFault};
use std::alloc::Global;

// Whether a name is taken and kept.
fn is_kept(alloc: Global, name: &[u8]) -> bool {
    match Name::of(alloc, name) {
        Ok(kept) => kept.bytes() == name,
        Err(_) => false,
    }
}

// Whether a name is refused as none.
fn is_refused(alloc: Global, name: &[u8]) -> bool {
    match Name::of(alloc, name) {
        Err(NameFault::BadName) => true,
        _ => false,
    }
}

#[test]
fn names_are_kept(rt: HostRuntime) {
    let is_so = is_kept(rt.alloc(), b"t") && is_refused(rt.alloc(), b"a/b");
    assert!(rt; is_so);
}
