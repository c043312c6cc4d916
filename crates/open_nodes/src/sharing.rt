//! That threads can take values of every type of this crate, and share them: it is shown by being proved.
use crate::{CallError, OpenNode, OpenRefusal, OpenSink, Shape};

fn shared<T: Send + Sync>() {}

fn share_every_type() {
    shared::<CallError>();
    shared::<OpenNode>();
    shared::<OpenRefusal>();
    shared::<OpenSink>();
    shared::<Shape>();
}
