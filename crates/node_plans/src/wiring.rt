//! The live links at each node, and the sinks.
ghost use Rattle.std.specs.Prelude.{◌≡◌, ◌<◌, IfOk, length, slice_index_or};
ghost use Rattle.std.specs.Arc.{arc_value};
ghost use Rattle.due_sums.specs.Waiting.{AreSums};

use crate::Plan;
use crate::listing::{Listed, list_links};
use crate::live_operands::operands_of_links;
use crate::sink_places::sink_places;
use item_list::ItemList;
use net_model::LinkList;
use node_program::{Code, LiveLinks, live_links};
use std::alloc::{AllocError, Global};
use std::marker::Model;
use std::sync::Arc;

/// For each link a place.
pub type PlaceTable = ItemList<u32>;

/// The live links of a code under a pattern: those into each node and out of it, and the place of each
/// among those into its head; and the place of each node among the sinks, where it is one. It is made
/// once for all nodes.
#[derive(Drop)]
pub struct LiveWiring {
    live: LiveLinks,
    ins: Vec<Vec<u32>>,
    outs: Vec<Vec<u32>>,
    places: Arc<PlaceTable>,
    sinks: Vec<Option<u32>>,
}

impl Model for LiveWiring {
    ghost use Rattle.node_plans.specs.Wired.{Wired};

    ghost Value = { Wired };

    ghost use Rattle.std.specs.Arc.{arc_value};
    ghost use Rattle.node_plans.specs.Listed.{items_of};

    ghost view = { λ wiring. record {
      live = wiring.live;
      ins = items_of wiring.ins.items;
      outs = items_of wiring.outs.items;
      places = arc_value wiring.places;
      sinks = wiring.sinks.items;
    } };
}

impl LiveWiring {
    ghost use Rattle.node_plans.specs.Plans.{IsPlan, input_count, plan_of, sums_of};
    ghost use Rattle.node_plans.specs.Wired.{HasPlaces, IsWiringOf};

    /// The wiring of a code under a pattern. Nodes, links, operands, sinks and the links of the pattern
    /// are gone over once.
    pub fn of(alloc: Global, code: &Code, pattern: u32) -> Result<LiveWiring, AllocError>
        requires { pattern < length code.now.net.patterns }
        ensures { IfOk result (IsWiringOf code.now pattern) }
    {
        let live = live_links(alloc, code, pattern)?;
        let Listed { ins, outs, places } = list_links(alloc, code, live.as_slice())?;
        let places = Arc::new(alloc, ItemList::of(places))?;
        let sinks = sink_places(alloc, code)?;
        Ok(LiveWiring {
            live,
            ins,
            outs,
            places,
            sinks,
        })
    }

    /// Which links are live.
    pub fn live(&self) -> &LiveLinks
        ensures { result.now ≡ self.now.live }
    {
        &self.live
    }

    /// The place of each live link among those into its head.
    pub fn places(&self) -> &Arc<PlaceTable>
        ensures { arc_value result.now ≡ self.now.places }
    {
        &self.places
    }

    /// The place of a node among the sinks, where it is one.
    pub fn sink_at(&self, node: u32) -> Option<u32>
        requires { node < length self.now.sinks }
        ensures { result ≡ slice_index_or self.now.sinks node None }
    {
        self.sinks[node as usize]
    }

    /// The plan of a node, in time linear in the links at it and their operands.
    pub fn plan(
        &self,
        alloc: Global,
        code: &Code,
        pattern: u32,
        node: u32,
    ) -> Result<Plan, AllocError>
        requires wiring { IsWiringOf code.now pattern self.now }
        requires pattern { pattern < length code.now.net.patterns }
        requires node { node < length code.now.net.nodes }
        ensures value { IfOk result (λ plan. plan ≡ plan_of code.now pattern node) }
        ensures plan { IfOk result IsPlan }
        ensures sums { IfOk result (λ plan. AreSums (input_count plan) (sums_of plan)) }
        ensures places { IfOk result (λ plan. HasPlaces plan self.now.places) }
    {
        let ins = copied(alloc, self.ins[node as usize].as_slice())?;
        let outs = copied(alloc, self.outs[node as usize].as_slice())?;
        let operands = operands_of_links(alloc, code, self.live.as_slice(), outs.as_slice())?;
        Ok(Plan {
            field: code.field,
            rate: code.rate,
            is_source: node == code.net.source,
            ins,
            outs,
            operands,
        })
    }
}

// A list of these links.
fn copied(alloc: Global, links: &[u32]) -> Result<LinkList, AllocError>
    ensures { IfOk result (λ list. list ≡ links.now) }
{
    let list = links.iter().copied().collect(alloc)?;
    Ok(ItemList::of(list))
}
