//! Networks with the coefficients of their links.
ghost use Rattle.std.specs.Prelude.{◌≡◌, ◌<◌, length, All};
ghost use Rattle.node_program.specs.Code.{IsDraft};
ghost use Rattle.node_program.specs.Operands.{IsOperand};
ghost use Rattle.node_program.specs.Value.{operands_at};

use crate::{Operand, OperandTable};
use gf_tables::FieldKind;
use net_model::Net;

/// A network with the coefficients of its links, lent: all that the values of links follow from. It is a code as
/// far as it needs no decoders.
#[derive(Clone, Copy)]
pub struct Coding<'a> {
    pub net: &'a Net,
    pub rate: u32,
    pub field: FieldKind,
    pub operands: &'a OperandTable,
    ghost draft: { IsDraft net.now rate field operands.now },
}

impl<'a> Coding<'a> {
    /// The operands of a link.
    pub fn operands_of(&self, link: u32) -> &'a [Operand]
        requires { link < length self.now.net.now.links }
        ensures value { result.now ≡ operands_at self.now.operands.now link }
        ensures valid { All
            (IsOperand self.now.net.now self.now.rate self.now.field link) result.now }
    {
        self.operands.at(link as usize).as_slice()
    }
}
