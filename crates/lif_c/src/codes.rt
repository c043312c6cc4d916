//! Calls that open, read and close codes.
ghost use Rattle.std.specs.Prelude.{◌≡◌};
ghost use Rattle.lif_c.specs.Boxes.{OpensBoxed, unboxed};
ghost use Rattle.lif_c.specs.Calls.{Closes, OpensBytes, ReadsCode, code_in};
ghost use Rattle.lif_c.specs.Held.{held};
ghost use Rattle.lif_c.specs.Statuses.{ok};
ghost use Rattle.lif_c.specs.Writing.{Writes, WritesName};
ghost use Rattle.open_nodes.specs.Shapes.{ends_of, link_name_of, node_name_of, pattern_name_of, shape_of, sink_node};

use crate::handle::Handle;
use crate::opened::Opened;
use crate::refusal::{Refusal, open_status, refusal_of};
use crate::status::{CLOSED, OK, OPEN, OTHER_KIND, error_number};
use crate::writing::{write, write_name};
use open_nodes::{
    OpenRefusal, Shape, ends_of, link_name_of, node_name_of, open_code, pattern_name_of, shape_of,
    sink_node,
};
use std::alloc::Global;

/// Reads and checks the bytes of a code file, on the thread of the call, and has the handle hold the code.
#[unsafe(no_mangle)]
pub extern "C" fn lif_code_open(
    alloc: Global,
    code: &mut Handle,
    bytes: &[u8],
    why: &mut Refusal,
) -> u32
    ensures { OpensBytes bytes.now (held code.old) (held code.new) why.old why.new result }
{
    if code.is_open() {
        return OPEN;
    }
    match open_boxed(alloc, bytes) {
        Ok(opened) => {
            code.put(opened);
            OK
        }
        Err(refusal) => {
            *why = refusal_of(refusal);
            open_status(refusal)
        }
    }
}

/// Closes a code: gives back its memory. Nodes and sinks of it stay open.
#[unsafe(no_mangle)]
pub extern "C" fn lif_code_close(alloc: Global, code: &mut Handle) -> u32
    ensures { Closes code_in (held code.old) (held code.new) result }
{
    let Some(opened) = code.take(alloc) else {
        return CLOSED;
    };
    if !matches!(&*opened, Opened::Code(_)) {
        code.put(opened);
        return OTHER_KIND;
    }
    OK
}

/// Writes the rate, the field, the source, and how much there is of the rest.
#[unsafe(no_mangle)]
pub extern "C" fn lif_code_shape(alloc: Global, code: &mut Handle, shape: &mut Shape) -> u32
    ensures { ReadsCode (shape.new ≡ shape.old) (λ it status. (status ≡ ok) × (shape.new ≡ shape_of it)) (held code.old) (held code.new) result }
{
    let Some(opened) = code.take(alloc) else {
        return CLOSED;
    };
    let status = match &*opened {
        Opened::Code(it) => {
            *shape = shape_of(it);
            OK
        }
        _ => OTHER_KIND,
    };
    code.put(opened);
    status
}

/// Writes the nodes that a link leaves and leads into.
#[unsafe(no_mangle)]
pub extern "C" fn lif_code_ends(
    alloc: Global,
    code: &mut Handle,
    link: u32,
    from: &mut u32,
    to: &mut u32,
) -> u32
    ensures { ReadsCode ((from.new ≡ from.old) × (to.new ≡ to.old))
        (λ it status. Writes (ends_of it link) (from.old, to.old) (from.new, to.new) status) (held code.old) (held code.new) result }
{
    let Some(opened) = code.take(alloc) else {
        return CLOSED;
    };
    let status = match &*opened {
        Opened::Code(it) => match ends_of(it, link) {
            Ok(ends) => {
                *from = ends.0;
                *to = ends.1;
                OK
            }
            Err(why) => error_number(why),
        }
        _ => OTHER_KIND,
    };
    code.put(opened);
    status
}

/// Writes the node of a sink.
#[unsafe(no_mangle)]
pub extern "C" fn lif_code_sink(alloc: Global, code: &mut Handle, sink: u32, node: &mut u32) -> u32
    ensures { ReadsCode (node.new ≡ node.old) (λ it status. Writes (sink_node it sink) node.old node.new status)
        (held code.old) (held code.new) result }
{
    let Some(opened) = code.take(alloc) else {
        return CLOSED;
    };
    let status = match &*opened {
        Opened::Code(it) => write(sink_node(it, sink), node),
        _ => OTHER_KIND,
    };
    code.put(opened);
    status
}

/// Writes the bytes of the name of a node to the front of `name`, and how many they are.
#[unsafe(no_mangle)]
pub extern "C" fn lif_code_node_name(
    alloc: Global,
    code: &mut Handle,
    node: u32,
    name: &mut [u8],
    length: &mut usize,
) -> u32
    ensures { ReadsCode ((name.new ≡ name.old) × (length.new ≡ length.old))
        (λ it status. WritesName (node_name_of it node) name.old length.old name.new length.new status)
        (held code.old) (held code.new) result }
{
    let Some(opened) = code.take(alloc) else {
        return CLOSED;
    };
    let status = match &*opened {
        Opened::Code(it) => write_name(node_name_of(it, node), name, length),
        _ => OTHER_KIND,
    };
    code.put(opened);
    status
}

/// Writes the bytes of the name of a link to the front of `name`, and how many they are.
#[unsafe(no_mangle)]
pub extern "C" fn lif_code_link_name(
    alloc: Global,
    code: &mut Handle,
    link: u32,
    name: &mut [u8],
    length: &mut usize,
) -> u32
    ensures { ReadsCode ((name.new ≡ name.old) × (length.new ≡ length.old))
        (λ it status. WritesName (link_name_of it link) name.old length.old name.new length.new status)
        (held code.old) (held code.new) result }
{
    let Some(opened) = code.take(alloc) else {
        return CLOSED;
    };
    let status = match &*opened {
        Opened::Code(it) => write_name(link_name_of(it, link), name, length),
        _ => OTHER_KIND,
    };
    code.put(opened);
    status
}

/// Writes the bytes of the name of a pattern to the front of `name`, and how many they are.
#[unsafe(no_mangle)]
pub extern "C" fn lif_code_pattern_name(
    alloc: Global,
    code: &mut Handle,
    pattern: u32,
    name: &mut [u8],
    length: &mut usize,
) -> u32
    ensures { ReadsCode ((name.new ≡ name.old) × (length.new ≡ length.old))
        (λ it status. WritesName (pattern_name_of it pattern) name.old length.old name.new length.new status)
        (held code.old) (held code.new) result }
{
    let Some(opened) = code.take(alloc) else {
        return CLOSED;
    };
    let status = match &*opened {
        Opened::Code(it) => write_name(pattern_name_of(it, pattern), name, length),
        _ => OTHER_KIND,
    };
    code.put(opened);
    status
}

// The code of some bytes, in a box of its own.
fn open_boxed(alloc: Global, bytes: &[u8]) -> Result<Box<Opened>, OpenRefusal>
    ensures { OpensBoxed bytes.now (unboxed result) }
{
    let checked = open_code(alloc, bytes)?;
    match Box::new(alloc, Opened::Code(checked)) {
        Ok(opened) => Ok(opened),
        Err(_) => Err(OpenRefusal::OutOfMemory),
    }
}
