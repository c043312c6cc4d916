//! Tables of live links, by tables of those that fail.
ghost use Rattle.std.specs.Prelude.{◌≡◌, ℕ, List, ◌<◌, length, slice_get, IfOk};
ghost use Rattle.node_program.specs.CodeValue.{is_live_in};
ghost use Rattle.node_program.specs.LiveTable.{IsFailTable, live_by};
ghost use Rattle.node_program.specs.Value.{is_live};

use crate::{Code, Coding, LiveLinks};
use item_list::ItemList;
use std::alloc::{AllocError, Global};

/// Which links are live under a pattern, in their order. Each link of the pattern, each link and each operand is
/// looked at once at most.
pub fn live_links(alloc: Global, code: &Code, pattern: u32) -> Result<LiveLinks, AllocError>
    requires { pattern < length code.now.net.patterns }
    ensures count { IfOk result (λ live. length live ≡ length code.now.net.links) }
    ensures entries { IfOk result (λ live. (e : ℕ) → e < length code.now.net.links
        → slice_get live e ≡ Some (is_live_in code.now pattern e)) }
{
    let failed = code.net.failed_table(alloc, pattern)?;
    live_where(alloc, code.coding(), &failed)
}

/// Which links are live where those of a table fail, in their order. Each link and each operand is looked at once at
/// most.
pub fn live_where(
    alloc: Global,
    coding: Coding<'_>,
    fails: &[bool],
) -> Result<LiveLinks, AllocError>
    requires { length fails.now ≡ length coding.net.now.links }
    ensures count { IfOk result (λ live. length live ≡ length coding.entry.net.now.links) }
    ensures entries { IfOk result (λ live. (failed : List ℕ)
        → IsFailTable failed (length coding.entry.net.now.links) fails.now
        → (e : ℕ) → e < length coding.entry.net.now.links
        → slice_get live e
        ≡ Some (is_live coding.entry.net.now coding.entry.operands.now failed e)) }
{
    let count = coding.net.links.len();
    let mut live = Vec::with_capacity(alloc, count)?;
    for link in 0..count {
        let is = is_live_by(coding, link as u32, fails[link], live.as_slice());
        live.push(is)?;
    }
    Ok(ItemList::of(live))
}

// Whether a link is live, by whether it fails and by which of the links before it are live.
fn is_live_by(coding: Coding<'_>, link: u32, fails: bool, before: &[bool]) -> bool
    requires link { link < length coding.net.now.links }
    requires before { length before.now ≡ link }
    ensures { result
        ≡ live_by coding.entry.net.now coding.entry.operands.now fails before.now link }
{
    if fails {
        return false;
    }
    let leaves = coding.net.leaves_source(link);
    for operand in coding.operands_of(link) {
        if leaves || before[operand.from as usize] {
            return true;
        }
    }
    false
}
