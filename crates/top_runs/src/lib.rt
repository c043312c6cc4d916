//! The commands that carry sources over links: `send`, `sendtwo` and `demo`.
//!
//! Begin with `send`, `send_two` and `demo`: each runs to an outcome, a status with its line. Read `specs/Sending.antt`, what
//! `send` and `sendtwo` share, then `specs/Send/Command.antt`, the four words of `send`, and `specs/SendTwo/Command.antt` and
//! `specs/Demo/Command.antt`. The laws that matter are `send_known` in proofs/SendPerforms, `send_two_known` in
//! proofs/SendTwoPerforms and `demo_known` in proofs/DemoPerforms: all that is promised of the commands follows from their calls.
#![tactic(auto)]

mod preparing;
mod preparing_two;
mod sending;
mod sending_two;
mod showing;
mod tally;

pub use sending::send;
pub use sending_two::send_two;
pub use showing::demo;
