//! Standard input, output and error, where they are closed.
ghost use Rattle.std.specs.Prelude.{◌≡◌, IfSome};

use std::fs::File;
use std::os::fd::AsRawFd;
use std::rt::Files;

// The least number that isn't that of standard input, output or error.
const FIRST_FREE: i32 = 3;

// A file, where it has one of their numbers; else it is closed.
fn if_standard<F: AsRawFd + Drop>(file: F) -> Option<F>
    ensures { IfSome result (λ standard. standard ≡ file) }
{
    if file.as_raw_fd() < FIRST_FREE {
        Some(file)
    } else {
        None
    }
}

// Takes the least number that is free, where it is one of theirs, by a folder that is opened for reads: it can neither
// be read from nor written to.
fn take_free<R: Files>(rt: &R) -> Option<R::File>
where
    R::File: AsRawFd,
{
    match File::open(rt, "/") {
        Ok(file) => if_standard(file),
        Err(_) => None,
    }
}

/// Files in the place of standard input, output and error, where those are closed: a system gives the least free number
/// to the next file that is opened, and what is said would go into that file. From these nothing can be read, and
/// nothing can be written to them.
#[derive(Drop)]
pub struct StandIns<F> {
    first: Option<F>,
    second: Option<F>,
    third: Option<F>,
}

impl<F: AsRawFd + Drop> StandIns<F> {
    /// Takes the places that are free. They are kept until this is let go.
    pub fn take<R: Files<File = F>>(rt: &R) -> StandIns<F> {
        StandIns {
            first: take_free(rt),
            second: take_free(rt),
            third: take_free(rt),
        }
    }
}
