//! Looks at arguments that nodes and sinks share.
ghost use Rattle.std.specs.Prelude.{◌≡◌, ◌<◌, IfOk};
ghost use Rattle.generation_frame.specs.Blocks.{pieces};
ghost use Rattle.generation_frame.specs.Frames.{packet_in};
ghost use Rattle.open_nodes.specs.Errors.{error_in, frame_packet, is_window, node_error, sink_error};

use crate::CallError;
use code_checker::Checked;
use generation_frame::{FRAME, MOST_BLOCKS, Packet, read_frame};

/// Whether so many generations from a first one on are a window.
pub(crate) fn is_window(first: u32, count: u32) -> bool
    ensures { result ≡ is_window first count }
{
    1 <= count && count as usize <= MOST_BLOCKS && u64::from(first) + u64::from(count) <= 1 << 32
}

/// Looks for a node of a code, and for a pattern.
pub(crate) fn see_node(code: &Checked, pattern: u32, node: u32) -> Result<(), CallError>
    ensures { error_in result ≡ node_error code.now pattern node }
{
    let net = &code.code().net;
    if pattern as usize >= net.patterns.len() {
        return Err(CallError::NoPattern);
    }
    if node as usize >= net.nodes.len() {
        return Err(CallError::NoNode);
    }
    Ok(())
}

/// Looks for a sink of a code, and for a pattern.
pub(crate) fn see_sink(code: &Checked, pattern: u32, sink: u32) -> Result<(), CallError>
    ensures { error_in result ≡ sink_error code.now pattern sink }
{
    let net = &code.code().net;
    if pattern as usize >= net.patterns.len() {
        return Err(CallError::NoPattern);
    }
    if sink as usize >= net.sinks.len() {
        return Err(CallError::NoSink);
    }
    Ok(())
}

/// The packet of the bytes of a frame.
pub(crate) fn packet_in(frame: &[u8]) -> Result<Packet, CallError>
    ensures value { result ≡ frame_packet frame.now }
    ensures packet { IfOk result (λ packet. packet ≡ packet_in frame.now) }
    ensures piece { IfOk result (λ packet. packet.piece < pieces) }
{
    if frame.len() != FRAME {
        return Err(CallError::BadLength);
    }
    let mut bytes = [0; FRAME];
    bytes.copy_from_slice(frame);
    match read_frame(&bytes) {
        Ok(packet) => Ok(packet),
        Err(_) => Err(CallError::BadFrame),
    }
}
