//! That threads can take values of every type of this crate, and share them: it is shown by being proved.
use crate::{CheckRefusal, Checked, Refused};

fn shared<T: Send + Sync>() {}

fn share_every_type() {
    shared::<Checked>();
    shared::<Refused>();
    shared::<CheckRefusal>();
}
