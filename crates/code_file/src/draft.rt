//! Drafts.
ghost use Rattle.node_program.specs.Code.{IsDraft};

use gf_tables::FieldKind;
use net_model::Net;
use node_program::{Coding, OperandTable};

/// A linear network code as far as it has no decoders. The rate is 1 to 32, and there are at most 65,536 demands. No link's
/// head is the tail of that link or of an earlier one. An operand of a link that leaves the source is a source row below the
/// rate, one of another link is a link into its tail; the operands of a link rise, and their coefficients are nonzero elements.
/// The network names the draft's field, and no wanted rate.
#[derive(Drop)]
pub struct Draft {
    pub net: Net,
    pub rate: u32,
    pub field: FieldKind,
    pub operands: OperandTable,
    ghost draft: { IsDraft net rate field operands },
}

impl Draft {
    ghost use Rattle.std.specs.Prelude.{◌≡◌};

    /// The draft of these parts. It takes no memory.
    pub fn of(net: Net, rate: u32, field: FieldKind, operands: OperandTable) -> Draft
        requires { IsDraft net rate field operands }
        ensures net { result.net ≡ net }
        ensures rate { result.rate ≡ rate }
        ensures field { result.field ≡ field }
        ensures operands { result.operands ≡ operands }
    {
        Draft {
            net,
            rate,
            field,
            operands,
        }
    }

    /// All that the values of its links follow from.
    pub fn coding(&self) -> Coding<'_>
        ensures net { result.net.now ≡ self.now.net }
        ensures rate { result.rate ≡ self.now.rate }
        ensures field { result.field ≡ self.now.field }
        ensures operands { result.operands.now ≡ self.now.operands }
    {
        Coding {
            net: &self.net,
            rate: self.rate,
            field: self.field,
            operands: &self.operands,
        }
    }
}
