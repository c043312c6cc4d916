//! The end of a file.
ghost use Rattle.std.specs.Prelude.{◌≡◌};
ghost use Rattle.code_items.specs.Gives.{left_of};
ghost use Rattle.code_items.specs.Whole.{end_at};

use crate::CodeRefusal;
use crate::rest::Rest;

/// Refuses the bytes that remain at the end of a file.
pub fn read_end(rest: Rest<'_>) -> Result<(), CodeRefusal>
    ensures { result ≡ end_at (left_of rest.entry) }
{
    if !rest.bytes.is_empty() {
        return Err(CodeRefusal::TrailingBytes { at: rest.at });
    }
    Ok(())
}
