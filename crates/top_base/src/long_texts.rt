//! Lines of many names, in memory that is taken once.
ghost use Rattle.std.specs.Prelude.{◌≡◌, ◌<◌, ◌++◌, All, IfOk, OnOk, length};
ghost use Rattle.net_model.specs.Demands.{demand_count};
ghost use Rattle.top_base.specs.Lines.{cycle_line, order_text, rank_line, rate_unmet_line, zero_rate_line};

use crate::lines::Line;
use failure_patterns::demand_at;
use itoa::Buffer;
use name_texts::{NAME_ROOM, node_name, push_demand, push_lines, push_links, push_side};
use net_model::Net;
use std::alloc::{AllocError, Global};

// Room for so many names and the words of a line.
fn room_for(names: usize) -> usize {
    names.saturating_mul(NAME_ROOM).saturating_add(32)
}

/// Adds the line of a sink's rank where links fail, by its node.
pub fn push_rank(
    lines: &mut Vec<u8>,
    net: &Net,
    rate: u32,
    sink: u32,
    rank: u32,
) -> Result<(), AllocError>
    requires { sink < length net.now.nodes }
    ensures { OnOk result (lines.new.items
        ≡ lines.old.items ++ rank_line net.now rate sink rank) }
{
    let mut digits = Buffer::new();
    lines.extend_from_slice(node_name(net, sink as usize))?;
    lines.extend_from_slice(b" rank ")?;
    lines.extend_from_slice(digits.format(rank).as_bytes())?;
    if rank == rate {
        lines.extend_from_slice(b" whole")?;
    }
    lines.push(b'\n')?;
    Ok(())
}

/// The names of links in an order, one per line.
pub fn order_text<'a>(alloc: Global, net: &Net, order: &[u32]) -> Result<Line<'a>, AllocError>
    requires { All (λ link. link < length net.now.links) order.now }
    ensures { IfOk result (λ line. line ≡ order_text net.now order.now) }
{
    let mut text = Vec::with_capacity(alloc, room_for(order.len()))?;
    push_lines(&mut text, net, order)?;
    Ok(Line::long(text))
}

/// A network has a cycle.
pub fn cycle_line<'a>(alloc: Global, net: &Net, cycle: &[u32]) -> Result<Line<'a>, AllocError>
    requires { All (λ link. link < length net.now.links) cycle.now }
    ensures { IfOk result (λ line. line ≡ cycle_line net.now cycle.now) }
{
    let mut text = Vec::with_capacity(alloc, room_for(cycle.len()))?;
    text.extend_from_slice(b"net refused: cycle")?;
    push_links(&mut text, net, cycle)?;
    text.push(b'\n')?;
    Ok(Line::long(text))
}

/// A demand of a network has no path: only failed links leave the side.
pub fn zero_rate_line<'a>(
    alloc: Global,
    net: &Net,
    demand: u32,
    side: &[bool],
) -> Result<Line<'a>, AllocError>
    requires demand { demand < demand_count net.now }
    requires side { length side.now ≡ length net.now.nodes }
    ensures { IfOk result (λ line. line ≡ zero_rate_line net.now demand side.now) }
{
    let mut text = Vec::with_capacity(alloc, room_for(side.len()))?;
    text.extend_from_slice(b"rate 0: demand ")?;
    push_demand(&mut text, net, demand_at(net, u64::from(demand)))?;
    text.extend_from_slice(b" side")?;
    push_side(&mut text, net, side)?;
    text.push(b'\n')?;
    Ok(Line::long(text))
}

/// The wanted rate is above that of a network: a demand has a least cut below it, with this least side.
pub fn rate_unmet_line<'a>(
    alloc: Global,
    net: &Net,
    demand: u32,
    side: &[bool],
    least: u32,
) -> Result<Line<'a>, AllocError>
    requires demand { demand < demand_count net.now }
    requires side { length side.now ≡ length net.now.nodes }
    ensures { IfOk result (λ line. line ≡ rate_unmet_line net.now demand side.now least) }
{
    let mut wanted = Buffer::new();
    let mut cut = Buffer::new();
    let mut text = Vec::with_capacity(alloc, room_for(side.len()).saturating_add(64))?;
    text.extend_from_slice(b"rate ")?;
    text.extend_from_slice(wanted.format(net.wanted.unwrap_or(0)).as_bytes())?;
    text.extend_from_slice(b" unmet: demand ")?;
    push_demand(&mut text, net, demand_at(net, u64::from(demand)))?;
    text.extend_from_slice(b" cut ")?;
    text.extend_from_slice(cut.format(least).as_bytes())?;
    text.extend_from_slice(b" side")?;
    push_side(&mut text, net, side)?;
    text.push(b'\n')?;
    Ok(Line::long(text))
}
