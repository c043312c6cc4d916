//! That threads can take values of every type of this crate, and share them: it is shown by being proved.
use crate::{Entry, InvertRefusal, Matrix, Row};
use gf_tables::{Field, Gf8, Gf9, Gf16};

fn shared<T: Send + Sync>() {}

fn share_over<F: Field + Send + Sync>() {
    shared::<Row<F>>();
    shared::<Matrix<F>>();
    shared::<Entry<F>>();
    shared::<InvertRefusal<F>>();
}

fn share_every_type() {
    share_over::<Gf8>();
    share_over::<Gf9>();
    share_over::<Gf16>();
}
