//! A network that is read from its text and put in order.
ghost use Rattle.std.specs.Prelude.{◌≡◌, ◌≢◌, ◌≤◌, ℕ, List, [], Ok, Err, IfOk, IfErr, length, unwrap_or};
ghost use Rattle.lif_outside.specs.Calls.{MakesCalls};
ghost use Rattle.link_chains.specs.Wiring.{IsWiring};
ghost use Rattle.net_model.specs.Failed.{member_count};
ghost use Rattle.net_model.specs.Limits.{longest_name};
ghost use Rattle.net_reader.specs.Statements.{most_read_members};
ghost use Rattle.net_reader.specs.Text.{net_limit, network_of, parts_of};
ghost use Rattle.topo_order.specs.Order.{IsShownCycle, order_of};
ghost use Rattle.top_base.specs.Lines.{refused_name};
ghost use Rattle.top_base.specs.Networks.{IsNetOf, ReadsNet, RefusesNetOrLosesIt};

use crate::lines::Line;
use crate::long_texts::cycle_line;
use crate::outcome::Outcome;
use crate::reading::read_whole;
use crate::status::{NetWhy, Status};
use lif_outside::Store;
use link_chains::{Wiring, wiring_of};
use net_model::{LinkList, Name, Net};
use net_reader::{NET_LIMIT, ReadRefusal, link_name, node_name, read_net};
use std::alloc::{AllocError, Global};
use topo_order::{OrderRefusal, order_along};

/// A network without a cycle, the chains of its links, and its links in order.
#[derive(Drop)]
pub struct Ordered {
    pub net: Net,
    pub wiring: Wiring,
    pub order: Vec<u32>,
}

// The name of the node or the link that a text is refused for, if it is for one.
fn refused_name(alloc: Global, text: &[u8], why: ReadRefusal) -> Result<Option<Name>, AllocError>
    ensures { IfOk result (λ name. unwrap_or name [] ≡ refused_name text.now why) }
{
    match why {
        ReadRefusal::SinkIsSource { sink } => node_name(alloc, text, sink),
        ReadRefusal::PatternNamed { link } => link_name(alloc, text, link),
        _ => Ok(None),
    }
}

// The bytes of a name, none where there is none.
fn bytes_of(name: &Option<Name>) -> &[u8]
    ensures bytes { result.now ≡ unwrap_or name.now [] }
    ensures short { length result.now ≤ longest_name }
{
    match name {
        Some(name) => name.bytes(),
        None => b"",
    }
}

// What a text that stands for no network makes of the command.
fn unread<'a>(alloc: Global, text: &[u8], why: ReadRefusal) -> Outcome<'a>
    requires { why ≢ ReadRefusal.OutOfMemory → network_of text.now ≡ Err why }
    ensures { RefusesNetOrLosesIt text.now result }
{
    if why == ReadRefusal::OutOfMemory {
        return Outcome::out_of_memory();
    }
    match refused_name(alloc, text, why) {
        Ok(name) => Outcome {
            status: Status::NetRefused(NetWhy::Text(why)),
            line: Line::net_refused(why, bytes_of(&name)),
        },
        Err(_) => Outcome::out_of_memory(),
    }
}

// What a network with a cycle makes of the command.
fn cyclic<'a>(alloc: Global, net: &Net, links: LinkList) -> Outcome<'a>
    requires { IsShownCycle net.now.links links }
    ensures { (text : List ℕ) → network_of text ≡ Ok (parts_of net.now)
        → RefusesNetOrLosesIt text result }
{
    match cycle_line(alloc, net, links.as_slice()) {
        Ok(line) => Outcome {
            status: Status::NetRefused(NetWhy::Cycle(links)),
            line,
        },
        Err(_) => Outcome::out_of_memory(),
    }
}

// The network that a text stands for, with its links in order.
fn parse<'a>(alloc: Global, text: &[u8]) -> Result<Ordered, Outcome<'a>>
    requires { length text.now ≤ net_limit }
    ensures net { IfOk result (λ ordered. IsNetOf text.now ordered.net) }
    ensures wiring { IfOk result (λ ordered.
        IsWiring ordered.net.links (length ordered.net.nodes) ordered.wiring) }
    ensures order { IfOk result (λ ordered. ordered.order.items ≡ order_of ordered.net.links) }
    ensures members { IfOk result (λ ordered. member_count ordered.net.patterns ≤ most_read_members) }
    ensures refused { IfErr result (λ outcome. RefusesNetOrLosesIt text.now outcome) }
{
    let net = match read_net(alloc, text) {
        Ok(net) => net,
        Err(why) => return Err(unread(alloc, text, why)),
    };
    let wiring = wiring_of(alloc, &net)?;
    match order_along(alloc, &net, &wiring) {
        Ok(order) => Ok(Ordered { net, wiring, order }),
        Err(OrderRefusal::Cyclic { links }) => Err(cyclic(alloc, &net, links)),
        Err(OrderRefusal::OutOfMemory) => Err(Outcome::out_of_memory()),
    }
}

/// Reads the text of a network at a path, and puts its links in order.
pub fn read_ordered<'a, S: Store>(
    alloc: Global,
    store: &mut S,
    path: &str,
) -> Result<Ordered, Outcome<'a>>
    ensures wiring { IfOk result (λ ordered.
        IsWiring ordered.net.links (length ordered.net.nodes) ordered.wiring) }
    ensures had { IfOk result
        (λ ordered. MakesCalls S.Store store.old store.new (ReadsNet path.now (Ok ordered.net))) }
    ensures order { IfOk result (λ ordered. ordered.order.items ≡ order_of ordered.net.links) }
    ensures members { IfOk result (λ ordered. member_count ordered.net.patterns ≤ most_read_members) }
    ensures lost { IfErr result
        (λ outcome. MakesCalls S.Store store.old store.new (ReadsNet path.now (Err outcome))) }
{
    let text = read_whole(store, path, NET_LIMIT, Vec::new(alloc))?;
    parse(alloc, &text)
}
