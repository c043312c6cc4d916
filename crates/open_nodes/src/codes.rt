//! What is told of a code.
ghost use Rattle.std.specs.Prelude.{◌≡◌, Err, IfErr, IfOk, Ok};
ghost use Rattle.open_nodes.specs.Shapes.{ends_of, link_name_of, node_name_of, pattern_name_of, shape_of, sink_node};

use crate::CallError;
use code_checker::Checked;
use generation_frame::cap;
use name_texts::{link_name, node_name, pattern_name};

/// The rate of a code, its field, its source, and how much there is of the rest.
#[repr(C)]
#[derive(Clone, Copy, Debug, PartialEq, Eq)]
pub struct Shape {
    /// The rate: the rows of a block.
    pub rate: u32,
    /// The number of the field in code files: 8, 9 or 16.
    pub field: u32,
    /// The node that is the source.
    pub source: u32,
    /// How many nodes there are.
    pub nodes: u32,
    /// How many links.
    pub links: u32,
    /// How many sinks.
    pub sinks: u32,
    /// How many patterns.
    pub patterns: u32,
    /// How many bytes of a source a block has room for.
    pub capacity: u32,
}

/// The shape of a code.
pub fn shape_of(code: &Checked) -> Shape
    ensures { result ≡ shape_of code.now }
{
    let code = code.code();
    Shape {
        rate: code.rate,
        field: u32::from(code.field.mark()),
        source: code.net.source,
        nodes: code.net.nodes.len() as u32,
        links: code.net.links.len() as u32,
        sinks: code.net.sinks.len() as u32,
        patterns: code.net.patterns.len() as u32,
        capacity: cap(code.rate),
    }
}

/// The nodes that a link leaves and leads into.
pub fn ends_of(code: &Checked, link: u32) -> Result<(u32, u32), CallError>
    ensures { result ≡ ends_of code.now link }
{
    let net = &code.code().net;
    if link as usize >= net.links.len() {
        return Err(CallError::NoLink);
    }
    Ok((net.tail(link), net.head(link)))
}

/// The node of a sink.
pub fn sink_node(code: &Checked, sink: u32) -> Result<u32, CallError>
    ensures { result ≡ sink_node code.now sink }
{
    let net = &code.code().net;
    if sink as usize >= net.sinks.len() {
        return Err(CallError::NoSink);
    }
    Ok(*net.sinks.at(sink as usize))
}

/// The name of a node.
pub fn node_name_of(code: &Checked, node: u32) -> Result<&[u8], CallError>
    ensures name { IfOk result (λ name. node_name_of code.now node ≡ Ok name.now) }
    ensures error { IfErr result (λ why. node_name_of code.now node ≡ Err why) }
{
    let net = &code.code().net;
    if node as usize >= net.nodes.len() {
        return Err(CallError::NoNode);
    }
    Ok(node_name(net, node as usize))
}

/// The name of a link.
pub fn link_name_of(code: &Checked, link: u32) -> Result<&[u8], CallError>
    ensures name { IfOk result (λ name. link_name_of code.now link ≡ Ok name.now) }
    ensures error { IfErr result (λ why. link_name_of code.now link ≡ Err why) }
{
    let net = &code.code().net;
    if link as usize >= net.links.len() {
        return Err(CallError::NoLink);
    }
    Ok(link_name(net, link))
}

/// The name of a pattern.
pub fn pattern_name_of(code: &Checked, pattern: u32) -> Result<&[u8], CallError>
    ensures name { IfOk result (λ name. pattern_name_of code.now pattern ≡ Ok name.now) }
    ensures error { IfErr result (λ why. pattern_name_of code.now pattern ≡ Err why) }
{
    let net = &code.code().net;
    if pattern as usize >= net.patterns.len() {
        return Err(CallError::NoPattern);
    }
    Ok(pattern_name(net, pattern as usize))
}
