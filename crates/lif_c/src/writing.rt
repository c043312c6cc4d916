//! What calls write where the caller says.
ghost use Rattle.std.specs.Prelude.{◌≡◌, ℕ, Err, IfErr, IfOk, List, Ok, Result};
ghost use Rattle.lif_c.specs.Writing.{Writes, WritesName, WritesNew};

use crate::status::{BAD_LENGTH, OK, error_number};
use generation_frame::Accepted;
use open_nodes::CallError;

/// Writes an answer, if it is no error.
pub(crate) fn write<T: Copy>(answer: Result<T, CallError>, place: &mut T) -> u32
    ensures { Writes answer place.old place.new result }
{
    match answer {
        Ok(value) => {
            *place = value;
            OK
        }
        Err(why) => error_number(why),
    }
}

/// Writes whether what was accepted is new.
pub(crate) fn write_new(answer: Result<Accepted, CallError>, is_new: &mut bool) -> u32
    ensures { WritesNew answer is_new.old is_new.new result }
{
    match answer {
        Ok(Accepted::New) => {
            *is_new = true;
            OK
        }
        Ok(Accepted::Known) => {
            *is_new = false;
            OK
        }
        Err(why) => error_number(why),
    }
}

/// Writes the bytes of a name to the front of some, and how many they are, if there is room for all.
pub(crate) fn write_name(
    answer: Result<&[u8], CallError>,
    place: &mut [u8],
    length: &mut usize,
) -> u32
    ensures { (due : Result (List ℕ) CallError) → IfOk answer.entry (λ name. due ≡ Ok name.now) → IfErr answer.entry (λ why. due ≡ Err why)
        → WritesName due place.old length.old place.new length.new result }
{
    let name = match answer {
        Ok(name) => name,
        Err(why) => return error_number(why),
    };
    if place.len() < name.len() {
        return BAD_LENGTH;
    }
    place[..name.len()].copy_from_slice(name);
    *length = name.len();
    OK
}
