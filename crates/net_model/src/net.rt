//! Networks.
ghost use Rattle.net_model.specs.Network.{IsNetwork, IsWanted};

use crate::renumbering::{mark, renumbered};
use crate::{LinkTable, NameList, NodeList, PatternList};
use std::alloc::{AllocError, Global};

/// Which field a network's codes are to be over.
#[derive(Clone, Copy, Debug, PartialEq, Eq)]
pub enum FieldChoice {
    /// The smallest that serves.
    Any,
    /// That of 256 elements.
    Eight,
    /// That of 65,536 elements.
    Sixteen,
}

/// A network. Names are valid and distinct in their kind. A link leads from one node to another. The
/// sinks are distinct nodes other than the source, at least one. The first pattern is `none`, without
/// links; each further one has at least one link, in rising order. There are at most 4096 nodes,
/// 8192 links and 4096 patterns, `none` among them. The rate that is wanted of its codes is 1 to 32, where
/// there is one.
#[derive(Drop)]
pub struct Net {
    pub nodes: NameList,
    pub links: LinkTable,
    pub source: u32,
    pub sinks: NodeList,
    pub patterns: PatternList,
    pub field: FieldChoice,
    pub wanted: Option<u32>,
    ghost network: { IsNetwork nodes links source sinks patterns },
    ghost rate: { IsWanted wanted },
}

impl Net {
    ghost use Rattle.std.specs.Prelude.{◌≡◌, ◌<◌, ◌≤◌, ℕ, IfOk, None, Some, false, length, slice_index_or, vec_len};
    ghost use Rattle.net_model.specs.Failed.{is_failed_in};
    ghost use Rattle.net_model.specs.Limits.{highest_rate};
    ghost use Rattle.net_model.specs.Renumbering.{HasEachOnce, IsRenumbered};
    ghost use Rattle.net_model.specs.Walks.{head_of, leaves_source, tail_of};

    /// The network of these parts, without a wanted rate. It takes no memory.
    pub fn of(
        nodes: NameList,
        links: LinkTable,
        source: u32,
        sinks: NodeList,
        patterns: PatternList,
        field: FieldChoice,
    ) -> Net
        requires { IsNetwork nodes links source sinks patterns }
        ensures nodes { result.nodes ≡ nodes }
        ensures links { result.links ≡ links }
        ensures source { result.source ≡ source }
        ensures sinks { result.sinks ≡ sinks }
        ensures patterns { result.patterns ≡ patterns }
        ensures field { result.field ≡ field }
        ensures wanted { result.wanted ≡ None }
    {
        Net {
            nodes,
            links,
            source,
            sinks,
            patterns,
            field,
            wanted: None,
        }
    }

    /// The network with this rate wanted of its codes, in place of any other. It takes no memory.
    pub fn wanting(self, rate: u32) -> Net
        requires some { 1 ≤ rate }
        requires low { rate ≤ highest_rate }
        ensures nodes { result.nodes ≡ self.nodes }
        ensures links { result.links ≡ self.links }
        ensures source { result.source ≡ self.source }
        ensures sinks { result.sinks ≡ self.sinks }
        ensures patterns { result.patterns ≡ self.patterns }
        ensures field { result.field ≡ self.field }
        ensures wanted { result.wanted ≡ Some rate }
    {
        let Net {
            nodes,
            links,
            source,
            sinks,
            patterns,
            field,
            wanted: _,
        } = self;
        Net {
            nodes,
            links,
            source,
            sinks,
            patterns,
            field,
            wanted: Some(rate),
        }
    }

    /// The node that a link leaves.
    pub fn tail(&self, link: u32) -> u32
        requires { link < length self.now.links }
        ensures value { result ≡ tail_of self.now.links link }
        ensures below { result < length self.now.nodes }
    {
        self.links.at(link as usize).tail
    }

    /// The node that a link leads into.
    pub fn head(&self, link: u32) -> u32
        requires { link < length self.now.links }
        ensures value { result ≡ head_of self.now.links link }
        ensures below { result < length self.now.nodes }
    {
        self.links.at(link as usize).head
    }

    /// Whether a link leaves the source.
    pub fn leaves_source(&self, link: u32) -> bool
        requires { link < length self.now.links }
        ensures { result ≡ leaves_source self.now link }
    {
        self.links.at(link as usize).tail == self.source
    }

    /// Whether a link fails in a pattern.
    pub fn is_failed(&self, pattern: u32, link: u32) -> bool
        requires pattern { pattern < length self.now.patterns }
        requires link { link < length self.now.links }
        ensures { result ≡ is_failed_in self.now.patterns pattern link }
    {
        let failed = &self.patterns.at(pattern as usize).links;
        failed.as_slice().iter().any(|one| *one == link)
    }

    /// For each link, whether it fails in a pattern. Each link of the pattern is looked at once.
    pub fn failed_table(&self, alloc: Global, pattern: u32) -> Result<Vec<bool>, AllocError>
        requires { pattern < length self.now.patterns }
        ensures count { IfOk result (λ failed. vec_len failed ≡ length self.now.links) }
        ensures entries { IfOk result (λ failed. (link : ℕ)
            → slice_index_or failed.items link false
            ≡ is_failed_in self.now.patterns pattern link) }
    {
        let mut failed = vec![in alloc; false; self.links.len()]?;
        let pattern = self.patterns.at(pattern as usize);
        mark(&mut failed, pattern.links.as_slice(), true);
        Ok(failed)
    }

    /// The network whose link `i` is the link `order[i]` of this one. The patterns have the new numbers of
    /// their links, in rising order, no rate is wanted, and all else but the field choice stays.
    pub fn renumbered(
        &self,
        alloc: Global,
        order: &[u32],
        field: FieldChoice,
    ) -> Result<Net, AllocError>
        requires { HasEachOnce (length self.now.links) order.now }
        ensures { IfOk result (IsRenumbered order.now field self.now) }
    {
        renumbered(alloc, self, order, field)
    }
}
