//! What a node gives, put on links.
ghost use Rattle.std.specs.Prelude.{OnErr, OnOk};
ghost use Rattle.node_stations.specs.Putting.{HasRoom, PutsDue, StopsPutting};

use generation_frame::frame_of;
use gf_tables::Field;
use lif_outside::{Failed, Links};
use relay_node::Node;

/// Puts the frame of each packet that a node gives, until nothing is due. Where a put fails the packets before it were
/// put.
pub fn put_due<F: Field, K: Links>(node: &mut Node<F>, links: &mut K) -> Result<(), Failed>
    requires { HasRoom K.Links links.old node.old }
    ensures put { OnOk result (PutsDue K.Links links.old links.new node.old node.new) }
    ensures failed { OnErr result (StopsPutting K.Links links.old links.new node.old node.new) }
{
    'due: while let Some(packet) = node.next_out() {
        links.put(packet.link, &frame_of(&packet))?;
    }
    Ok(())
}
