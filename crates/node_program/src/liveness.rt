//! Whether a link of a code is live under a pattern.
ghost use Rattle.std.specs.Prelude.{◌≡◌, ◌<◌, length, All};
ghost use Rattle.node_program.specs.CodeValue.{is_live_in};
ghost use Rattle.node_program.specs.Operands.{IsOperand};
ghost use Rattle.node_program.specs.Value.{operands_at};

use crate::{Code, Operand};

/// Whether a link is live under a pattern: it doesn't fail, and an operand of it is a source row or of a live
/// link. It takes no memory, and goes back over all ways to the link until one is live.
pub fn live(code: &Code, pattern: u32, link: u32) -> bool
    requires pattern { pattern < length code.now.net.patterns }
    requires link { link < length code.now.net.links }
    ensures { result ≡ is_live_in code.now pattern link }
{
    if code.net.is_failed(pattern, link) {
        return false;
    }
    let leaves = code.net.leaves_source(link);
    for operand in operands_of(code, link) {
        if leaves || live(code, pattern, operand.from) {
            return true;
        }
    }
    false
}

/// The operands of a link.
pub fn operands_of(code: &Code, link: u32) -> &[Operand]
    requires { link < length code.now.net.links }
    ensures value { result.now ≡ operands_at code.now.operands link }
    ensures valid { All (IsOperand code.now.net code.now.rate code.now.field link) result.now }
{
    code.coding().operands_of(link)
}
