//! The search for the nodes that the source reaches, depth first.
ghost use Rattle.std.specs.Prelude.{◌≡◌, ◌<◌, ◌≤◌, ℕ, ◌+◌, ◌-◌, ◌*◌, true, false, List, Bool, IfNone, IfOk, IfSome, Some, length, slice_index, slice_set};
ghost use Rattle.counted_steps.specs.Steps.{RoseBy, RoseByAtMost};
ghost use Rattle.link_chains.specs.Chains.{end_of};
ghost use Rattle.link_chains.specs.Wiring.{IsWiring};
ghost use Rattle.net_model.specs.Flows.{is_on};
ghost use Rattle.unit_flow.specs.Residual.{AreEntered, passage};
ghost use Rattle.unit_flow.specs.Searching.{CountsLooks, EndsAt, GoesOn, HasPassed, HasPlaces, HasReached, HaveLedIn, IsEntry, IsLeft, IsOnChain, IsSearchIn, IsWayIn, KeepsWay, MovesAt, has_sink, last_of, looks, looks_from, sink_of, with_entry};

use crate::residual::Residual;
use counted_steps::Steps;
use link_chains::{LinkEnd, Wiring};
use net_model::Net;
use std::alloc::{AllocError, Global};
use std::sync::ledger::Ledger;

// A node that wasn't reached before, and the link that leads to it.
#[derive(Clone, Copy)]
pub(crate) struct Entry {
    pub(crate) node: u32,
    pub(crate) link: u32,
}

// How far the links at a node were passed.
#[derive(Clone, Copy)]
pub(crate) struct Passed {
    // The first link that wasn't, or the number of links.
    pub(crate) next: u32,
    // What the last of them led to, where that is new.
    pub(crate) entry: Option<Entry>,
}

// The nodes that the source reaches, as far as they were found.
#[derive(Drop)]
pub(crate) struct Search {
    // The way from the source to the node that is looked at, node by node, and a place for each other node.
    pub(crate) way: Vec<u32>,
    // How many nodes are on the way.
    pub(crate) depth: usize,
    // For each node that was reached, other than the source, the link by which it was.
    pub(crate) came: Vec<u32>,
    // For each node whether it was reached.
    pub(crate) reached: Vec<bool>,
    // For each node its first link that wasn't passed from there, or the number of links: of those that leave it,
    // and of those that lead into it.
    pub(crate) from: Vec<u32>,
    pub(crate) into: Vec<u32>,
}

// The node at an end of a link.
fn end_of(net: &Net, end: LinkEnd, link: u32) -> u32
    requires { link < length net.now.links }
    ensures { result ≡ end_of net.now.links end link }
{
    match end {
        LinkEnd::Tail => net.tail(link),
        LinkEnd::Head => net.head(link),
    }
}

impl Search {
    // A search in a network of so many nodes, which reached none yet.
    pub(crate) fn new(alloc: Global, nodes: usize) -> Result<Search, AllocError>
        ensures { IfOk result (HasPlaces nodes) }
    {
        let way = vec![in alloc; 0; nodes]?;
        let came = vec![in alloc; 0; nodes]?;
        let reached = vec![in alloc; false; nodes]?;
        let from = vec![in alloc; 0; nodes]?;
        let into = vec![in alloc; 0; nodes]?;
        Ok(Search {
            way,
            depth: 0,
            came,
            reached,
            from,
            into,
        })
    }

    // Reaches the source, and nothing else.
    fn begin(&mut self, net: &Net, wiring: &Wiring, residual: &Residual)
        requires wiring { IsWiring net.now.links (length net.now.nodes) wiring.now }
        requires places { HasPlaces (length net.now.nodes) self.old }
        requires sink { residual.now.demand.sink < length net.now.sinks }
        ensures searching { IsSearchIn net.now residual.now self.new }
        ensures sink { has_sink net.now residual.now self.new ≡ false }
        ensures none { (marks : List Bool) → looks net.now.links marks self.new ≡ 0 }
    {
        self.reached.as_mut_slice().fill(false);
        self.reached[net.source as usize] = true;
        self.way[0] = net.source;
        self.depth = 1;
        self.from
            .as_mut_slice()
            .copy_from_slice(wiring.from.firsts.as_slice());
        self.into
            .as_mut_slice()
            .copy_from_slice(wiring.into.firsts.as_slice());
    }

    // Passes a link from a node, and gives the node that it leads to, where that wasn't reached.
    fn pass<L: Ledger>(
        &self,
        net: &Net,
        residual: &Residual,
        link: u32,
        node: u32,
        steps: &mut Steps<L>,
    ) -> Option<u32>
        requires states { length residual.now.states ≡ length net.now.links }
        requires link { link < length net.now.links }
        requires places { HasPlaces (length net.now.nodes) self.now }
        ensures entry { IfSome result (λ next.
            IsEntry net.now residual.now.states node self.now.reached.items
            (record { node = next; link = link })) }
        ensures known { IfNone result ((next : ℕ)
            → passage net.now.links residual.now.states link node ≡ Some next
            → is_on self.now.reached.items next ≡ true) }
        ensures ticks { RoseBy 1 steps.old steps.new }
    {
        let next = residual.cross(net, link, node, steps)?;
        if self.reached[next as usize] {
            return None;
        }
        Some(next)
    }

    // Passes the links at the node that is looked at, from one of them on, until one leads to a node that wasn't
    // reached.
    fn pass_chain<L: Ledger>(
        &self,
        net: &Net,
        wiring: &Wiring,
        end: LinkEnd,
        residual: &Residual,
        node: u32,
        first: u32,
        steps: &mut Steps<L>,
    ) -> Passed
        requires wiring { IsWiring net.now.links (length net.now.nodes) wiring.now }
        requires states { length residual.now.states ≡ length net.now.links }
        requires places { HasPlaces (length net.now.nodes) self.now }
        requires first { IsOnChain (end_of net.now.links end) (length net.now.links) node first }
        ensures passed { HasPassed net.now residual.now.states end node first
            self.now.reached.items result steps.old steps.new }
        ensures entry { IfSome result.entry
            (IsEntry net.now residual.now.states node self.now.reached.items) }
        ensures all { IfNone result.entry (length net.now.links ≤ result.next) }
        ensures looked { IfSome result.entry (λ entry. steps.old < steps.new) }
    {
        let chains = wiring.chains(end);
        let count = net.links.len() as u32;
        let mut link = first;
        while link < count {
            let next = chains.nexts[link as usize];
            // It is the node, read off the link: so the compiler sees from which end the link is looked at.
            let from = end_of(net, end, link);
            if let Some(to) = self.pass(net, residual, link, from, steps) {
                let entry = Some(Entry { node: to, link });
                return Passed { next, entry };
            }
            link = next;
        }
        Passed {
            next: link,
            entry: None,
        }
    }

    // The next node that wasn't reached, from the node that is looked at. Links into the node are passed back only where
    // they are used: where none ever was, all of them are left out without a look.
    fn next_entry<L: Ledger>(
        &mut self,
        net: &Net,
        wiring: &Wiring,
        residual: &Residual,
        entered: &[bool],
        steps: &mut Steps<L>,
    ) -> Option<Entry>
        requires wiring { IsWiring net.now.links (length net.now.nodes) wiring.now }
        requires states { length residual.now.states ≡ length net.now.links }
        requires entered { AreEntered net.now.links (length net.now.nodes) residual.now.states
            entered.now }
        requires searching { IsSearchIn net.now residual.now self.old }
        requires on_way { 0 < self.old.depth }
        ensures way { KeepsWay self.old self.new }
        ensures moved { MovesAt (last_of self.old) self.old self.new }
        ensures led { HaveLedIn net.now residual.now
            (with_entry result self.old.reached.items) self.new }
        ensures entry { IfSome result (IsEntry net.now residual.now.states (last_of self.old)
            self.old.reached.items) }
        ensures left { IfNone result (IsLeft (length net.now.links) self.new (last_of self.old)) }
        ensures looked { IfSome result (λ entry. steps.old < steps.new) }
        ensures ticks { CountsLooks net.now entered.now self.old self.new steps.old steps.new }
    {
        let node = self.way[self.depth - 1];
        let first = self.from[node as usize];
        let passed = self.pass_chain(net, wiring, LinkEnd::Tail, residual, node, first, steps);
        self.from[node as usize] = passed.next;
        if passed.entry.is_some() {
            return passed.entry;
        }
        if !entered[node as usize] {
            self.into[node as usize] = net.links.len() as u32;
            return None;
        }
        let first = self.into[node as usize];
        let passed = self.pass_chain(net, wiring, LinkEnd::Head, residual, node, first, steps);
        self.into[node as usize] = passed.next;
        passed.entry
    }

    // Puts a node at the end of the way.
    fn enter(&mut self, entry: Entry)
        requires way { self.old.depth < length self.old.way.items }
        requires came { entry.node < length self.old.came.items }
        requires reached { entry.node < length self.old.reached.items }
        ensures way { self.new.way.items ≡ slice_set self.old.way.items self.old.depth entry.node }
        ensures depth { self.new.depth ≡ self.old.depth + 1 }
        ensures came { self.new.came.items ≡ slice_set self.old.came.items entry.node entry.link }
        ensures reached { self.new.reached.items
            ≡ slice_set self.old.reached.items entry.node true }
        ensures from { self.new.from.items ≡ self.old.from.items }
        ensures into { self.new.into.items ≡ self.old.into.items }
    {
        self.way[self.depth] = entry.node;
        self.depth += 1;
        self.came[entry.node as usize] = entry.link;
        self.reached[entry.node as usize] = true;
    }

    // Goes on from the node that is looked at to one that wasn't reached, or back to the one before it where there is
    // none, and says whether it got to the sink.
    fn go_on<L: Ledger>(
        &mut self,
        net: &Net,
        wiring: &Wiring,
        residual: &Residual,
        entered: &[bool],
        sink: u32,
        steps: &mut Steps<L>,
    ) -> bool
        requires wiring { IsWiring net.now.links (length net.now.nodes) wiring.now }
        requires states { length residual.now.states ≡ length net.now.links }
        requires entered { AreEntered net.now.links (length net.now.nodes) residual.now.states
            entered.now }
        requires searching { IsSearchIn net.now residual.now self.old }
        requires on_way { 0 < self.old.depth }
        requires away { is_on self.old.reached.items sink ≡ false }
        ensures searching { IsSearchIn net.now residual.now self.new }
        ensures sink { is_on self.new.reached.items sink ≡ result }
        ensures at_sink { result ≡ true → EndsAt sink self.new }
        ensures ticks { CountsLooks net.now entered.now self.old self.new steps.old steps.new }
        ensures sooner { GoesOn net.now entered.now self.old self.new }
    {
        let Some(entry) = self.next_entry(net, wiring, residual, entered, steps) else {
            self.depth -= 1;
            return false;
        };
        self.enter(entry);
        entry.node == sink
    }

    // Searches from the source until the sink is reached or no node is left, and says whether it is.
    pub(crate) fn reaches_sink<L: Ledger>(
        &mut self,
        net: &Net,
        wiring: &Wiring,
        residual: &Residual,
        entered: &[bool],
        steps: &mut Steps<L>,
    ) -> bool
        requires wiring { IsWiring net.now.links (length net.now.nodes) wiring.now }
        requires states { length residual.now.states ≡ length net.now.links }
        requires entered { AreEntered net.now.links (length net.now.nodes) residual.now.states
            entered.now }
        requires sink { residual.now.demand.sink < length net.now.sinks }
        requires places { HasPlaces (length net.now.nodes) self.old }
        ensures way { IsWayIn net.now residual.now self.new }
        ensures sink { has_sink net.now residual.now self.new ≡ result }
        ensures at_sink { result ≡ true → EndsAt (sink_of net.now residual.now) self.new }
        ensures reached { result ≡ false → HasReached net.now residual.now self.new }
        ensures ticks { RoseBy (looks net.now.links entered.now self.new) steps.old steps.new }
        ensures few_looks { RoseByAtMost (2 * length net.now.links) steps.old steps.new }
        ensures each_once { result ≡ false
            → RoseBy (looks_from net.now.links entered.now self.new.reached.items) steps.old steps.new }
    {
        let sink = residual.sink(net);
        self.begin(net, wiring, residual);
        while self.depth > 0 {
            if self.go_on(net, wiring, residual, entered, sink, steps) {
                return true;
            }
        }
        false
    }
}
