//! Which numbers below a limit have come, by a table.
ghost use Rattle.std.specs.Prelude.{◌<◌, [], length, IfOk};
ghost use Rattle.code_items.specs.Marks.{AreMarks, TellsMark, AddsMark};

use std::alloc::{AllocError, Global};

/// A table in which no number has come.
pub(crate) fn no_marks(alloc: Global, limit: usize) -> Result<Vec<bool>, AllocError>
    ensures { IfOk result (λ marks. AreMarks limit [] marks.items) }
{
    Ok(vec![in alloc; false; limit]?)
}

/// Whether a number has come.
pub(crate) fn is_marked(marks: &[bool], number: usize) -> bool
    requires { number < length marks.now }
    ensures { TellsMark marks.now number result }
{
    marks[number]
}

/// Says that a number has come.
pub(crate) fn mark(marks: &mut [bool], number: usize)
    requires { number < length marks.old }
    ensures { AddsMark marks.old marks.new number }
{
    marks[number] = true;
}
