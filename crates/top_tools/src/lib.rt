//! The commands `order`, `cuts` and `check`, which read one input and say what they find; `compile`, which makes a code
//! of a network and writes it with the report; `twin`, which does so for two sources; `migrate`, which writes a code's file anew,
//! and `finish`, which makes a code of a draft; and the codes of combination networks.
//!
//! There is a call for each command, of that name, and `combination_code`. Read `specs/Order.antt`, `specs/Cuts.antt`,
//! `specs/Check.antt`, `specs/Compile.antt`, `specs/Migrate.antt`, `specs/Finish.antt` and `specs/Twin.antt`, each the four
//! words of its command.
#![tactic(auto)]

mod checking;
mod coding;
mod combining;
mod compiling;
mod cutting;
mod files;
mod finishing;
mod making;
mod migrating;
mod ordering;
mod reporting;
mod twinning;

pub use checking::check;
pub use combining::combination_code;
pub use compiling::compile;
pub use cutting::cuts;
pub use finishing::finish;
pub use migrating::migrate;
pub use ordering::order;
pub use twinning::twin;
