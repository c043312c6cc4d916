//! That threads can take values of every type of this crate, and share them: it is shown by being proved.
use crate::Station;
use gf_tables::{Gf8, Gf9, Gf16};

fn shared<T: Send + Sync>() {}

fn share_every_type() {
    shared::<Station<Gf8>>();
    shared::<Station<Gf9>>();
    shared::<Station<Gf16>>();
}
