//! The program: `launch` of `lif_top`, over the system that it runs on.
#![tactic(auto)]

use lif_top::launch;
use std::io::Printer;
use std::process::ExitCode;
use system_files::{FileStore, WriterSay};

/// The store of the program: the files of the system.
pub type DiskStore<'r> = FileStore<'r, HostRuntime>;

/// The sink of the program: standard output.
pub type StdSay<'r> = WriterSay<Printer<'r, HostRuntime>>;

fn main(rt: HostRuntime) -> ExitCode {
    launch(&rt, &rt)
}
