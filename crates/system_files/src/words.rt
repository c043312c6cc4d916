//! The words that a program is given by its system.
ghost use Rattle.std.specs.Prelude.{◌≡◌, ◌≢◌};
ghost use Rattle.std.specs.IoError.{error_kind};

use std::io::ErrorKind;
use std::rt::Env;
use std::{env, io};

/// The words after the program's name, as the system gave them.
#[derive(Drop)]
pub enum Words {
    /// All of them are text.
    Given(Vec<String>),
    /// One of them isn't text.
    NotText,
    /// There was no memory for them.
    NoMemory,
}

/// A system that gives a program the words that it is called with.
pub trait GivesWords {
    ghost use Rattle.std.specs.Prelude.{ℕ, List, Option, IfSome};
    ghost use Rattle.system_files.specs.Words.{Gives};

    /// The bytes of the words after the program's name, where the system tells them.
    ghost told: { Self → Option (List (List ℕ)) };

    /// The words after the program's name, each as it is, or why they can't be had.
    fn given_words(&self) -> Words
        ensures { IfSome (told self.now) (λ words. Gives words result) };
}

// The words after the program's name.
fn arguments<R: Env + AllocGlobal>(rt: &R) -> io::Result<Vec<String>> {
    let arguments = env::args(rt)?.skip(1).collect(rt.alloc())?;
    Ok(arguments)
}

// Why the words can't be had.
fn why(error: &io::Error) -> Words
    ensures memory { error_kind error.now ≡ ErrorKind.OutOfMemory → result ≡ Words.NoMemory }
    ensures text { error_kind error.now ≢ ErrorKind.OutOfMemory → result ≡ Words.NotText }
{
    match error.kind() {
        ErrorKind::OutOfMemory => Words::NoMemory,
        _ => Words::NotText,
    }
}

/// The words after the program's name, of a system that doesn't tell them.
pub fn words_of<R: Env + AllocGlobal>(rt: &R) -> Words {
    match arguments(rt) {
        Ok(arguments) => Words::Given(arguments),
        Err(error) => why(&error),
    }
}

/// The system that the program runs on.
impl GivesWords for HostRuntime {
    ghost use Rattle.std.specs.Prelude.{None};

    ghost told = { λ _. None };

    fn given_words(&self) -> Words {
        words_of(self)
    }
}
