//! The live links at each node, listed one after another.
ghost use Rattle.std.specs.Prelude.{◌≡◌, ◌<◌, ◌+◌, Bool, List, [], IfOk, OnOk, length, replicate};
ghost use Rattle.node_plans.specs.Listed.{AreListed, items_of};

use node_program::Code;
use std::alloc::{AllocError, Global};

// The live links so far: those into each node and out of it, and the place of each among those into its head.
#[derive(Drop)]
pub(crate) struct Listed {
    pub(crate) ins: Vec<Vec<u32>>,
    pub(crate) outs: Vec<Vec<u32>>,
    pub(crate) places: Vec<u32>,
}

// The live links of a code, by a table of them.
pub(crate) fn list_links(alloc: Global, code: &Code, live: &[bool]) -> Result<Listed, AllocError>
    requires { length live.now ≡ length code.now.net.links }
    ensures { IfOk result (AreListed code.now live.now (length code.now.net.links)) }
{
    let mut listed = nothing_listed(alloc, code)?;
    for link in 0..live.len() {
        list_link(&mut listed, code, live, link as u32)?;
    }
    Ok(listed)
}

// No link is listed.
fn nothing_listed(alloc: Global, code: &Code) -> Result<Listed, AllocError>
    ensures { IfOk result (λ listed. (live : List Bool) → AreListed code.now live 0 listed) }
{
    let ins = empty_lists(alloc, code.net.nodes.len())?;
    let outs = empty_lists(alloc, code.net.nodes.len())?;
    let places = vec![in alloc; 0; code.net.links.len()]?;
    Ok(Listed { ins, outs, places })
}

// So many empty lists.
fn empty_lists(alloc: Global, count: usize) -> Result<Vec<Vec<u32>>, AllocError>
    ensures { IfOk result (λ lists. items_of lists.items ≡ replicate count []) }
{
    let mut lists = Vec::with_capacity(alloc, count)?;
    for _ in 0..count {
        lists.push(Vec::new(alloc))?;
    }
    Ok(lists)
}

// Lists a link at its ends, if it is live.
fn list_link(listed: &mut Listed, code: &Code, live: &[bool], link: u32) -> Result<(), AllocError>
    requires link { link < length code.now.net.links }
    requires live { length live.now ≡ length code.now.net.links }
    requires listed { AreListed code.now live.now link listed.old }
    ensures { OnOk result (AreListed code.now live.now (link + 1) listed.new) }
{
    if live[link as usize] {
        let head = code.net.head(link) as usize;
        let tail = code.net.tail(link) as usize;
        listed.places[link as usize] = listed.ins[head].len() as u32;
        listed.ins[head].push(link)?;
        listed.outs[tail].push(link)?;
    }
    Ok(())
}
