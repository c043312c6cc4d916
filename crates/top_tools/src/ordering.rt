//! The command `order`.
ghost use Rattle.std.specs.Prelude.{◌≡◌, ◌⊎◌};
ghost use Rattle.topo_order.specs.Order.{order_of};
ghost use Rattle.top_base.specs.Inputs.{IsNoMemory};
ghost use Rattle.top_base.specs.Performs.{RunsOnStore};
ghost use Rattle.top_tools.specs.Order.{IsOrdered, order_command};

use lif_outside::Store;
use std::alloc::Global;
use top_base::{Ordered, Outcome, Status, order_text, read_ordered};

// Says a network's links in order.
#[tactic(auto, using(topo_order::proofs::OrderLaws::order_below))]
fn say_order<'a>(alloc: Global, ordered: &Ordered) -> Outcome<'a>
    requires { ordered.now.order.items ≡ order_of ordered.now.net.links }
    ensures { IsOrdered ordered.now.net result ⊎ IsNoMemory result }
{
    match order_text(alloc, &ordered.net, &ordered.order) {
        Ok(line) => Outcome {
            status: Status::Done,
            line,
        },
        Err(_) => Outcome::out_of_memory(),
    }
}

/// Reads the network at a path, and says its links in order.
pub fn order<'a, S: Store>(alloc: Global, path: &str, store: &mut S) -> Outcome<'a>
    ensures { RunsOnStore S.Store (order_command path.now) store.old store.new result }
{
    match read_ordered(alloc, store, path) {
        Ok(ordered) => say_order(alloc, &ordered),
        Err(refused) => refused,
    }
}
