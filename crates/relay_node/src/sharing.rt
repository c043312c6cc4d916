//! That threads can take values of every type of this crate, and share them: it is shown by being proved.
use crate::Node;
use gf_tables::{Gf8, Gf9, Gf16};

fn shared<T: Send + Sync>() {}

fn share_every_type() {
    shared::<Node<Gf8>>();
    shared::<Node<Gf9>>();
    shared::<Node<Gf16>>();
}
