//! Certificates of the least cuts of a network's demands: a flow and a cut of equal size (Ford and Fulkerson).
//!
//! Begin with `certify_all`, which makes those of all demands in batches side by side; `certify` makes one, and
//! `rate` is the least value. Read `specs/Certificate.antt`. The law that matters is `IsRate-least_value` in
//! proofs/CertificateLaws: the least value of the certificates is the rate of the network.
#![tactic(auto)]

mod batches;
mod cert;
mod certifying;
mod crossing;
mod sharing;

pub use cert::Cert;
pub use certifying::{certify, certify_all, certify_all_along, rate};
