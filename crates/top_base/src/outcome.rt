//! How a command ends: a status, and the line that is said with it.
ghost use Rattle.std.specs.Prelude.{◌≡◌, OnOk, OnErr};
ghost use Rattle.top_base.specs.Lines.{link_fault_line, out_of_memory_line, too_long_line, usage_line, write_fault_line};
ghost use Rattle.lif_outside.specs.Calls.{MakesPuts};
ghost use Rattle.lif_outside.specs.Puts.{SaysAll, SaysPart};
ghost use Rattle.top_base.specs.Outcome.{SaysOutcome, status_unsaid};

use crate::lines::Line;
use crate::reading::FileRefusal;
use crate::status::Status;
use lif_outside::{Failed, Sink};
use std::alloc::AllocError;

/// A status, and the line that is said with it.
#[derive(Drop)]
pub struct Outcome<'a> {
    pub status: Status,
    pub line: Line<'a>,
}

impl<'a> Outcome<'a> {
    /// The words are no form.
    pub fn usage() -> Outcome<'a>
        ensures status { result.status ≡ Status.Usage }
        ensures line { result.line ≡ usage_line }
    {
        Outcome {
            status: Status::Usage,
            line: Line::usage(),
        }
    }

    /// An output couldn't be created or written.
    pub fn write_fault() -> Outcome<'a>
        ensures status { result.status ≡ Status.WriteFault }
        ensures line { result.line ≡ write_fault_line }
    {
        Outcome {
            status: Status::WriteFault,
            line: Line::write_fault(),
        }
    }

    /// A call on the links failed.
    pub fn link_fault() -> Outcome<'a>
        ensures status { result.status ≡ Status.LinkFault }
        ensures line { result.line ≡ link_fault_line }
    {
        Outcome {
            status: Status::LinkFault,
            line: Line::link_fault(),
        }
    }

    /// An input, or what would be written, is longer than its limit.
    pub fn too_long() -> Outcome<'a>
        ensures status { result.status ≡ Status.TooLong }
        ensures line { result.line ≡ too_long_line }
    {
        Outcome {
            status: Status::TooLong,
            line: Line::too_long(),
        }
    }

    /// There was no memory.
    pub fn out_of_memory() -> Outcome<'a>
        ensures status { result.status ≡ Status.OutOfMemory }
        ensures line { result.line ≡ out_of_memory_line }
    {
        Outcome {
            status: Status::OutOfMemory,
            line: Line::out_of_memory(),
        }
    }
}

impl<'a> From<FileRefusal> for Outcome<'a> {
    ghost use Rattle.std.specs.Prelude.{◌≡◌};
    ghost use Rattle.top_base.specs.FileReading.{outcome_of};

    ghost from_gives = { λ refusal outcome. outcome ≡ outcome_of refusal };

    fn from(refusal: FileRefusal) -> Outcome<'a> {
        match refusal {
            FileRefusal::Fault => Outcome {
                status: Status::ReadFault,
                line: Line::read_fault(),
            },
            FileRefusal::TooLong => Outcome::too_long(),
            FileRefusal::OutOfMemory => Outcome::out_of_memory(),
        }
    }
}

impl<'a> From<AllocError> for Outcome<'a> {
    ghost use Rattle.std.specs.Prelude.{◌≡◌};
    ghost use Rattle.top_base.specs.FileReading.{outcome_of};
    ghost use Rattle.top_base.specs.declared.reading.FileRefusal.TheVariants.{OutOfMemory};

    ghost from_gives = { λ _ outcome. outcome ≡ outcome_of OutOfMemory };

    fn from(_: AllocError) -> Outcome<'a> {
        Outcome::out_of_memory()
    }
}

// Says a line: at once, or where it has a text of the words of the call, that apart.
fn say_line<C: Sink>(line: &Line<'_>, say: &mut C) -> Result<(), Failed>
    ensures all { OnOk result (MakesPuts C.Sink say.old say.new (SaysAll line.now)) }
    ensures part { OnErr result (MakesPuts C.Sink say.old say.new (SaysPart line.now)) }
{
    let (text, quoted) = line.pieces();
    say.put(text)?;
    if let Some(quoted) = quoted {
        say.put(quoted)?;
        say.put(b"\n")?;
    }
    Ok(())
}

// The status where the line couldn't be said to its end: a write fault where a command is done.
fn status_unsaid(status: Status) -> Status
    ensures { result ≡ status_unsaid status }
{
    match status {
        Status::Done => Status::WriteFault,
        refusal => refusal,
    }
}

/// Says the line of an outcome, and answers its status, but a write fault where a command is done and its line
/// couldn't be said.
pub fn conclude<C: Sink>(status: Status, line: &Line<'_>, say: &mut C) -> Status
    ensures { MakesPuts C.Sink say.old say.new
        (SaysOutcome (record { status = status; line = line.now }) result) }
{
    match say_line(line, say) {
        Ok(()) => status,
        Err(_) => status_unsaid(status),
    }
}
