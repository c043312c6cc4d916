//! Codes.
ghost use Rattle.node_program.specs.Code.{IsCode};

use crate::{Coding, DecoderTable, OperandTable};
use gf_tables::FieldKind;
use net_model::Net;

/// A linear network code. The rate is 1 to 32, and there are at most 65,536 demands. No link's head is the
/// tail of that link or of an earlier one. An operand of a link that leaves the source is a source row below
/// the rate, one of another link is a link into its tail; the operands of a link rise, and their
/// coefficients are nonzero elements. Each decoder has as many links as the rate, rising and all into the
/// demand's sink, and a square matrix of elements. The network names the code's field, and no wanted rate.
#[derive(Drop)]
pub struct Code {
    pub net: Net,
    pub rate: u32,
    pub field: FieldKind,
    pub operands: OperandTable,
    pub decoders: DecoderTable,
    ghost code: { IsCode net rate field operands decoders },
}

impl Code {
    ghost use Rattle.std.specs.Prelude.{◌≡◌};

    /// The code of these parts. It takes no memory.
    pub fn of(
        net: Net,
        rate: u32,
        field: FieldKind,
        operands: OperandTable,
        decoders: DecoderTable,
    ) -> Code
        requires { IsCode net rate field operands decoders }
        ensures net { result.net ≡ net }
        ensures rate { result.rate ≡ rate }
        ensures field { result.field ≡ field }
        ensures operands { result.operands ≡ operands }
        ensures decoders { result.decoders ≡ decoders }
    {
        Code {
            net,
            rate,
            field,
            operands,
            decoders,
        }
    }
    /// All that the values of its links follow from.
    pub fn coding(&self) -> Coding<'_>
        ensures net { result.net.now ≡ self.now.net }
        ensures rate { result.rate ≡ self.now.rate }
        ensures field { result.field ≡ self.now.field }
        ensures operands { result.operands.now ≡ self.now.operands }
    {
        Coding {
            net: &self.net,
            rate: self.rate,
            field: self.field,
            operands: &self.operands,
        }
    }
}
