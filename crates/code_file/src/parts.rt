//! The parts of a code, as they are read.
use code_items::DraftParts;
use node_program::DecoderTable;

/// All that a code file says.
#[derive(Drop)]
pub(crate) struct Parts {
    pub draft: DraftParts,
    pub decoders: DecoderTable,
}
