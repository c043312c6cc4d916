//! That threads can take values of every type of this crate, and share them: it is shown by being proved.
use crate::{Blind, Gain, HeadRefusal};
use gf_tables::{Field, Gf8, Gf9, Gf16};

fn shared<T: Send + Sync>() {}

fn share_over<F: Field + Send + Sync>() {
    shared::<Blind<F>>();
}

fn share_every_type() {
    shared::<HeadRefusal>();
    shared::<Gain>();
    share_over::<Gf8>();
    share_over::<Gf9>();
    share_over::<Gf16>();
}
