//! Calls of nodes.
ghost use Rattle.std.specs.Prelude.{◌≡◌, slice_get};
ghost use Rattle.lif_c.specs.Boxes.{OpensBoxedNode, unboxed};
ghost use Rattle.lif_c.specs.Calls.{Answers, CallsNode, Closes, IsOpened, Opens, ReadsNode, TakesIn, node_in};
ghost use Rattle.lif_c.specs.Held.{held};
ghost use Rattle.lif_c.specs.Writing.{Writes};
ghost use Rattle.lif_c.specs.declared.opened.Opened.TheVariants.{Node};
ghost use Rattle.open_nodes.specs.NodeCalls.{AcceptsFrame, BeginsNode, FeedsNode, OpensNode, WritesNext, link_or_error};

use crate::handle::Handle;
use crate::opened::Opened;
use crate::status::{CLOSED, OK, OPEN, OTHER_KIND, error_number, status_of};
use crate::writing::{write, write_new};
use code_checker::Checked;
use open_nodes::{CallError, OpenNode};
use std::alloc::Global;

/// Opens a node of a code under a pattern, before any generation.
#[unsafe(no_mangle)]
pub extern "C" fn lif_node_open(
    alloc: Global,
    node: &mut Handle,
    code: &mut Handle,
    pattern: u32,
    number: u32,
) -> u32
    ensures opens { Opens (λ it. IsOpened Node (OpensNode it pattern number)) (held node.old) (held node.new) (held code.old) result }
    ensures code { held code.new ≡ held code.old }
{
    if node.is_open() {
        return OPEN;
    }
    let Some(opened) = code.take(alloc) else {
        return CLOSED;
    };
    let status = match &*opened {
        Opened::Code(it) => match open_boxed(alloc, it, pattern, number) {
            Ok(opened) => {
                node.put(opened);
                OK
            }
            Err(why) => error_number(why),
        }
        _ => OTHER_KIND,
    };
    code.put(opened);
    status
}

/// Writes the live link into the node at a place, of those that rise.
#[unsafe(no_mangle)]
pub extern "C" fn lif_node_link_in(
    alloc: Global,
    node: &mut Handle,
    place: u32,
    link: &mut u32,
) -> u32
    ensures { ReadsNode (link.new ≡ link.old) (λ it. Writes (link_or_error (slice_get it.plan.ins place)) link.old link.new)
        (held node.old) (held node.new) result }
{
    let Some(opened) = node.take(alloc) else {
        return CLOSED;
    };
    let status = match &*opened {
        Opened::Node(it) => write(it.link_in(place), link),
        _ => OTHER_KIND,
    };
    node.put(opened);
    status
}

/// Writes the live link out of the node at a place, of those that rise.
#[unsafe(no_mangle)]
pub extern "C" fn lif_node_link_out(
    alloc: Global,
    node: &mut Handle,
    place: u32,
    link: &mut u32,
) -> u32
    ensures { ReadsNode (link.new ≡ link.old) (λ it. Writes (link_or_error (slice_get it.plan.outs place)) link.old link.new)
        (held node.old) (held node.new) result }
{
    let Some(opened) = node.take(alloc) else {
        return CLOSED;
    };
    let status = match &*opened {
        Opened::Node(it) => write(it.link_out(place), link),
        _ => OTHER_KIND,
    };
    node.put(opened);
    status
}

/// Forgets what came and what was given, and begins these generations.
#[unsafe(no_mangle)]
pub extern "C" fn lif_node_begin(alloc: Global, node: &mut Handle, first: u32, count: u32) -> u32
    ensures { CallsNode (Unit {0}) (λ old new. Answers (BeginsNode first count old new)) (held node.old) (held node.new) result }
{
    let Some(mut opened) = node.take(alloc) else {
        return CLOSED;
    };
    let status = match &mut *opened {
        Opened::Node(it) => status_of(it.begin(first, count)),
        _ => OTHER_KIND,
    };
    node.put(opened);
    status
}

/// Takes in the block of a generation, at the source.
#[unsafe(no_mangle)]
pub extern "C" fn lif_node_feed(
    alloc: Global,
    node: &mut Handle,
    generation: u32,
    block: &[u8],
) -> u32
    ensures { CallsNode (Unit {0}) (λ old new. Answers (FeedsNode generation block.now old new)) (held node.old) (held node.new) result }
{
    let Some(mut opened) = node.take(alloc) else {
        return CLOSED;
    };
    let status = match &mut *opened {
        Opened::Node(it) => status_of(it.feed(generation, block)),
        _ => OTHER_KIND,
    };
    node.put(opened);
    status
}

/// Takes a frame in that came on a link into the node, and writes whether its piece is new.
#[unsafe(no_mangle)]
pub extern "C" fn lif_node_accept(
    alloc: Global,
    node: &mut Handle,
    frame: &[u8],
    is_new: &mut bool,
) -> u32
    ensures { CallsNode (is_new.new ≡ is_new.old) (λ old new. TakesIn (AcceptsFrame frame.now old new) is_new.old is_new.new)
        (held node.old) (held node.new) result }
{
    let Some(mut opened) = node.take(alloc) else {
        return CLOSED;
    };
    let status = match &mut *opened {
        Opened::Node(it) => write_new(it.accept(frame), is_new),
        _ => OTHER_KIND,
    };
    node.put(opened);
    status
}

/// Writes the frame of the least packet that is due, by generation, link and piece.
#[unsafe(no_mangle)]
pub extern "C" fn lif_node_next(alloc: Global, node: &mut Handle, frame: &mut [u8]) -> u32
    ensures { CallsNode (frame.new ≡ frame.old) (λ old new. Answers (WritesNext frame.old frame.new old new)) (held node.old) (held node.new) result }
{
    let Some(mut opened) = node.take(alloc) else {
        return CLOSED;
    };
    let status = match &mut *opened {
        Opened::Node(it) => status_of(it.next_out(frame)),
        _ => OTHER_KIND,
    };
    node.put(opened);
    status
}

/// Closes a node: gives back its memory.
#[unsafe(no_mangle)]
pub extern "C" fn lif_node_close(alloc: Global, node: &mut Handle) -> u32
    ensures { Closes node_in (held node.old) (held node.new) result }
{
    let Some(opened) = node.take(alloc) else {
        return CLOSED;
    };
    if !matches!(&*opened, Opened::Node(_)) {
        node.put(opened);
        return OTHER_KIND;
    }
    OK
}

// One of a code under a pattern, in a box of its own.
fn open_boxed(
    alloc: Global,
    code: &Checked,
    pattern: u32,
    number: u32,
) -> Result<Box<Opened>, CallError>
    ensures { OpensBoxedNode code.now pattern number (unboxed result) }
{
    let it = OpenNode::open(alloc, code, pattern, number)?;
    match Box::new(alloc, Opened::Node(it)) {
        Ok(opened) => Ok(opened),
        Err(_) => Err(CallError::NoMemory),
    }
}
