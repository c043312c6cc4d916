//! The text of a line: short ones in place, and long ones in memory.
use arrayvec::ArrayVec;

/// Room for a short text: for the names of a sink and a pattern with as many numbers as the greatest rate.
pub const ROOM: usize = 768;

/// A text that grows in place.
pub type ShortText = ArrayVec<u8, ROOM>;

/// A text, in place or in memory.
#[derive(Drop)]
pub enum Text {
    Short(ShortText),
    Long(Vec<u8>),
}
