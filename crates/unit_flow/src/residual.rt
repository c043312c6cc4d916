//! Residual networks.
ghost use Rattle.std.specs.Prelude.{◌≡◌, ◌<◌, IfOk, IfSome, length, slice_index, slice_set};
ghost use Rattle.counted_steps.specs.Steps.{RoseBy};
ghost use Rattle.unit_flow.specs.Residual.{HasStates, IsUnused, is_failed, is_free, is_used, passage};

use counted_steps::Steps;
use net_model::{Demand, Net};
use std::alloc::{AllocError, Global};
use std::marker::Model;
use std::sync::ledger::Ledger;

/// What holds of a link in a residual network.
#[derive(Clone, Copy, Debug, PartialEq, Eq)]
pub enum LinkState {
    /// It is on no path.
    Free,
    /// It is on a path.
    Used,
    /// It failed.
    Failed,
}

/// The residual network of a demand: which links may be passed, and from which of their ends.
#[derive(Drop)]
pub struct Residual {
    demand: Demand,
    states: Vec<LinkState>,
}

impl Model for Residual {
    ghost use Rattle.unit_flow.specs.Residual.{ResidualNetwork};

    ghost Value = { ResidualNetwork };

    ghost view = { λ residual.
        record { demand = residual.demand; states = residual.states.items } };
}

impl Residual {
    /// The residual network of a demand in which no link is used.
    pub fn start(alloc: Global, net: &Net, demand: Demand) -> Result<Residual, AllocError>
        requires sink { demand.sink < length net.now.sinks }
        requires pattern { demand.pattern < length net.now.patterns }
        ensures demand { IfOk result (λ residual. residual.demand ≡ demand) }
        ensures states { IfOk result (HasStates net.now demand) }
        ensures unused { IfOk result IsUnused }
    {
        let mut states = vec![in alloc; LinkState::Free; net.links.len()]?;
        for link in net.patterns.at(demand.pattern as usize).links.as_slice() {
            states[*link as usize] = LinkState::Failed;
        }
        Ok(Residual { demand, states })
    }

    // The node of the demand's sink.
    pub(crate) fn sink(&self, net: &Net) -> u32
        requires { self.now.demand.sink < length net.now.sinks }
        ensures { result ≡ slice_index net.now.sinks self.now.demand.sink }
    {
        *net.sinks.at(self.demand.sink as usize)
    }

    // Whether a link is free.
    pub(crate) fn is_free(&self, link: u32) -> bool
        requires { link < length self.now.states }
        ensures { result ≡ is_free self.now.states link }
    {
        self.states[link as usize] == LinkState::Free
    }

    // Whether a link is used.
    pub(crate) fn is_used(&self, link: u32) -> bool
        requires { link < length self.now.states }
        ensures { result ≡ is_used self.now.states link }
    {
        self.states[link as usize] == LinkState::Used
    }

    /// Looks at a link from a node, and gives the node at the other end where the link is passed. There is none exactly
    /// where the residual network doesn't let it be passed from there: from its tail it is passed where it is free, from
    /// its head where it is used. A look takes one step.
    pub fn cross<L: Ledger>(
        &self,
        net: &Net,
        link: u32,
        from: u32,
        steps: &mut Steps<L>,
    ) -> Option<u32>
        requires link { link < length net.now.links }
        requires states { length self.now.states ≡ length net.now.links }
        ensures value { result ≡ passage net.now.links self.now.states link from }
        ensures node { IfSome result (λ next. next < length net.now.nodes) }
        ensures ticks { RoseBy 1 steps.old steps.new }
    {
        steps.tick();
        if from == net.tail(link) && self.is_free(link) {
            return Some(net.head(link));
        }
        if from == net.head(link) && self.is_used(link) {
            return Some(net.tail(link));
        }
        None
    }

    /// Whether a link failed.
    pub fn is_failed(&self, link: u32) -> bool
        requires { link < length self.now.states }
        ensures { result ≡ is_failed self.now.states link }
    {
        self.states[link as usize] == LinkState::Failed
    }

    // Changes the state of a link.
    pub(crate) fn set_state(&mut self, link: u32, state: LinkState)
        requires { link < length self.old.states }
        ensures demand { self.new.demand ≡ self.old.demand }
        ensures states { self.new.states ≡ slice_set self.old.states link state }
    {
        self.states[link as usize] = state;
    }
}
