//! Calls of sinks.
ghost use Rattle.std.specs.Prelude.{◌≡◌};
ghost use Rattle.lif_c.specs.Boxes.{OpensBoxedSink, unboxed};
ghost use Rattle.lif_c.specs.Calls.{Answers, CallsSink, Closes, IsOpened, Opens, ReadsSink, TakesIn, sink_in};
ghost use Rattle.lif_c.specs.Held.{held};
ghost use Rattle.lif_c.specs.Statuses.{ok};
ghost use Rattle.lif_c.specs.Writing.{Writes};
ghost use Rattle.lif_c.specs.declared.opened.Opened.TheVariants.{Sink};
ghost use Rattle.open_nodes.specs.SinkCalls.{BeginsSink, OpensSink, TakesFrame, WritesBlock, whole_or_error};
ghost use Rattle.sink_decoder.specs.Receiving.{wants as is_wanted};

use crate::handle::Handle;
use crate::opened::Opened;
use crate::status::{CLOSED, OK, OPEN, OTHER_KIND, error_number, status_of};
use crate::writing::{write, write_new};
use code_checker::Checked;
use open_nodes::{CallError, OpenSink};
use std::alloc::Global;

/// Opens a sink of a code under a pattern, before any generation.
#[unsafe(no_mangle)]
pub extern "C" fn lif_sink_open(
    alloc: Global,
    sink: &mut Handle,
    code: &mut Handle,
    pattern: u32,
    number: u32,
) -> u32
    ensures opens { Opens (λ it. IsOpened Sink (OpensSink it pattern number)) (held sink.old) (held sink.new) (held code.old) result }
    ensures code { held code.new ≡ held code.old }
{
    if sink.is_open() {
        return OPEN;
    }
    let Some(opened) = code.take(alloc) else {
        return CLOSED;
    };
    let status = match &*opened {
        Opened::Code(it) => match open_boxed(alloc, it, pattern, number) {
            Ok(opened) => {
                sink.put(opened);
                OK
            }
            Err(why) => error_number(why),
        }
        _ => OTHER_KIND,
    };
    code.put(opened);
    status
}

/// Forgets what came, and begins these generations.
#[unsafe(no_mangle)]
pub extern "C" fn lif_sink_begin(alloc: Global, sink: &mut Handle, first: u32, count: u32) -> u32
    ensures { CallsSink (Unit {0}) (λ old new. Answers (BeginsSink first count old new)) (held sink.old) (held sink.new) result }
{
    let Some(mut opened) = sink.take(alloc) else {
        return CLOSED;
    };
    let status = match &mut *opened {
        Opened::Sink(it) => status_of(it.begin(first, count)),
        _ => OTHER_KIND,
    };
    sink.put(opened);
    status
}

/// Writes whether the sink takes in what a link gives it.
#[unsafe(no_mangle)]
pub extern "C" fn lif_sink_wants(
    alloc: Global,
    sink: &mut Handle,
    link: u32,
    wants: &mut bool,
) -> u32
    ensures { ReadsSink (wants.new ≡ wants.old) (λ it status. (status ≡ ok) × (wants.new ≡ is_wanted it.plan link)) (held sink.old) (held sink.new) result }
{
    let Some(opened) = sink.take(alloc) else {
        return CLOSED;
    };
    let status = match &*opened {
        Opened::Sink(it) => {
            *wants = it.wants(link);
            OK
        }
        _ => OTHER_KIND,
    };
    sink.put(opened);
    status
}

/// Takes a frame in that came on a link that the sink wants, and writes whether its piece is new.
#[unsafe(no_mangle)]
pub extern "C" fn lif_sink_accept(
    alloc: Global,
    sink: &mut Handle,
    frame: &[u8],
    is_new: &mut bool,
) -> u32
    ensures { CallsSink (is_new.new ≡ is_new.old) (λ old new. TakesIn (TakesFrame frame.now old new) is_new.old is_new.new)
        (held sink.old) (held sink.new) result }
{
    let Some(mut opened) = sink.take(alloc) else {
        return CLOSED;
    };
    let status = match &mut *opened {
        Opened::Sink(it) => write_new(it.accept(frame), is_new),
        _ => OTHER_KIND,
    };
    sink.put(opened);
    status
}

/// Writes whether all pieces of all wanted links have come.
#[unsafe(no_mangle)]
pub extern "C" fn lif_sink_is_whole(
    alloc: Global,
    sink: &mut Handle,
    generation: u32,
    is_whole: &mut bool,
) -> u32
    ensures { ReadsSink (is_whole.new ≡ is_whole.old) (λ it. Writes (whole_or_error it generation) is_whole.old is_whole.new)
        (held sink.old) (held sink.new) result }
{
    let Some(opened) = sink.take(alloc) else {
        return CLOSED;
    };
    let status = match &*opened {
        Opened::Sink(it) => write(it.is_whole(generation), is_whole),
        _ => OTHER_KIND,
    };
    sink.put(opened);
    status
}

/// Writes the block of a generation that is whole.
#[unsafe(no_mangle)]
pub extern "C" fn lif_sink_block(
    alloc: Global,
    sink: &mut Handle,
    generation: u32,
    block: &mut [u8],
) -> u32
    ensures { ReadsSink (block.new ≡ block.old) (λ it. Answers (WritesBlock generation it block.old block.new)) (held sink.old) (held sink.new) result }
{
    let Some(opened) = sink.take(alloc) else {
        return CLOSED;
    };
    let status = match &*opened {
        Opened::Sink(it) => status_of(it.block(generation, block)),
        _ => OTHER_KIND,
    };
    sink.put(opened);
    status
}

/// Closes a sink: gives back its memory.
#[unsafe(no_mangle)]
pub extern "C" fn lif_sink_close(alloc: Global, sink: &mut Handle) -> u32
    ensures { Closes sink_in (held sink.old) (held sink.new) result }
{
    let Some(opened) = sink.take(alloc) else {
        return CLOSED;
    };
    if !matches!(&*opened, Opened::Sink(_)) {
        sink.put(opened);
        return OTHER_KIND;
    }
    OK
}

// One of a code under a pattern, in a box of its own.
fn open_boxed(
    alloc: Global,
    code: &Checked,
    pattern: u32,
    number: u32,
) -> Result<Box<Opened>, CallError>
    ensures { OpensBoxedSink code.now pattern number (unboxed result) }
{
    let it = OpenSink::open(alloc, code, pattern, number)?;
    match Box::new(alloc, Opened::Sink(it)) {
        Ok(opened) => Ok(opened),
        Err(_) => Err(CallError::NoMemory),
    }
}
