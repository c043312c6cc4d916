//! The network of what is read.
ghost use Rattle.code_items.specs.Parts.{front_seen};
ghost use Rattle.code_file.specs.Spelling.{IsNetOf, IsNetworkFront};

use code_items::Front;
use net_model::Net;
use node_program::choice_of;

/// The network of its parts.
pub(crate) fn net_of(front: Front) -> Net
    requires { IsNetworkFront (front_seen front) }
    ensures { IsNetOf (front_seen front) result }
{
    let Front {
        field,
        rate: _,
        nodes,
        links,
        source,
        sinks,
        patterns,
    } = front;
    Net::of(nodes, links, source, sinks, patterns, choice_of(field))
}
