//! The parts of a code file before the decoders, as they are read.
ghost use Rattle.std.specs.Prelude.{◌≤◌, ◌*◌, length};
ghost use Rattle.failure_patterns.specs.UsedField.{pair_demands};
ghost use Rattle.net_model.specs.Limits.{highest_rate};

use gf_tables::FieldKind;
use net_model::{LinkTable, NameList, NodeList, PatternList};
use node_program::OperandTable;

/// What stands in a code file up to the operands: the field, the rate, and a network with its pattern
/// `none` and the listed ones.
#[derive(Drop)]
pub struct Front {
    pub field: FieldKind,
    pub rate: u32,
    pub nodes: NameList,
    pub links: LinkTable,
    pub source: u32,
    pub sinks: NodeList,
    pub patterns: PatternList,
    ghost low_rate: { rate ≤ highest_rate },
    ghost few_demands: { length sinks * length patterns ≤ pair_demands },
}

/// What stands in a code file before the decoders, and is all of the file of a draft.
#[derive(Drop)]
pub struct DraftParts {
    pub version: u8,
    pub front: Front,
    pub operands: OperandTable,
}
