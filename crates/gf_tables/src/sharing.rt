//! That threads can take values of every type of this crate, and share them: it is shown by being proved.
use crate::{FieldKind, Generates, Gf8, Gf9, Gf16, NoRoot, Octet, Poly11B, Poly11D, Quad, Width};

// Threads can share values of the type, copy and compare them.
fn shared<T: Copy + Eq + Send + Sync>() {}

fn share_over<T: Generates + Send + Sync, F: NoRoot + Send + Sync>() {
    shared::<Octet<T>>();
    shared::<Quad<F>>();
}

fn share_every_type() {
    shared::<Poly11B>();
    shared::<Poly11D>();
    shared::<Gf8>();
    shared::<Gf9>();
    shared::<Gf16>();
    shared::<FieldKind>();
    shared::<Width>();
    share_over::<Poly11D, Gf8>();
}
