//! The lists that codes are made of.
use crate::{Decoder, Operand};
use item_list::ItemList;

/// Numbers of elements, of a matrix row by row.
pub type Entries = ItemList<u32>;

/// The operands of a link.
pub type OperandList = ItemList<Operand>;

/// The operands of each link.
pub type OperandTable = ItemList<OperandList>;

/// A decoder for each demand.
pub type DecoderTable = ItemList<Decoder>;

/// For each link, whether it is live.
pub type LiveLinks = ItemList<bool>;
