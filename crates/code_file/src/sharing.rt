//! That threads can take drafts, and share them: it is shown by being proved.
use crate::Draft;

fn shared<T: Send + Sync>() {}

fn share_drafts() {
    shared::<Draft>();
}
