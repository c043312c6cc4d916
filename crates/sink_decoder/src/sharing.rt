//! That threads can take values of every type of this crate, and share them: it is shown by being proved.
use crate::Decoder;
use gf_tables::{Gf8, Gf9};

fn shared<T: Send + Sync>() {}

fn share_every_type() {
    shared::<Decoder<Gf8>>();
    shared::<Decoder<Gf9>>();
}
