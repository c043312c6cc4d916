//! That threads can take values of every type of this crate, and share them: it is shown by being proved.
use crate::{LinkFault, Runner, Turn};
use gf_tables::{Gf8, Gf9, Gf16};

fn shared<T: Send + Sync>() {}

fn share_every_type() {
    shared::<Runner<'static, Gf8>>();
    shared::<Runner<'static, Gf9>>();
    shared::<Runner<'static, Gf16>>();
    shared::<Turn>();
    shared::<LinkFault>();
}
