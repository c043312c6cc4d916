//! The names of a network's nodes, links and patterns.
ghost use Rattle.std.specs.Prelude.{◌≡◌, ◌<◌, ◌≤◌, length};
ghost use Rattle.net_model.specs.Limits.{longest_name};
ghost use Rattle.net_model.specs.Name.{IsName};
ghost use Rattle.name_texts.specs.Names.{link_name, node_name, pattern_name, sink_name};

use net_model::Net;

/// The name of a node.
pub fn node_name(net: &Net, node: usize) -> &[u8]
    requires { node < length net.now.nodes }
    ensures value { result.now ≡ node_name net.now node }
    ensures valid { IsName result.now }
    ensures short { length result.now ≤ longest_name }
{
    net.nodes.at(node).bytes()
}

/// The name of a link.
pub fn link_name(net: &Net, link: u32) -> &[u8]
    requires { link < length net.now.links }
    ensures value { result.now ≡ link_name net.now link }
    ensures short { length result.now ≤ longest_name }
{
    net.links.at(link as usize).name.bytes()
}

/// The name of a sink, by its place among the sinks.
pub fn sink_name(net: &Net, sink: usize) -> &[u8]
    requires { sink < length net.now.sinks }
    ensures value { result.now ≡ sink_name net.now sink }
    ensures valid { IsName result.now }
    ensures short { length result.now ≤ longest_name }
{
    node_name(net, *net.sinks.at(sink) as usize)
}

/// The name of a pattern, by its place among the patterns.
pub fn pattern_name(net: &Net, pattern: usize) -> &[u8]
    requires { pattern < length net.now.patterns }
    ensures value { result.now ≡ pattern_name net.now pattern }
    ensures short { length result.now ≤ longest_name }
{
    net.patterns.at(pattern).name.bytes()
}
