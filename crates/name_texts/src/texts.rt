//! Texts of many names.
ghost use Rattle.std.specs.Prelude.{◌≡◌, ◌<◌, ◌++◌, All, OnOk, length};
ghost use Rattle.name_texts.specs.Names.{demand_text, link_lines, links_text, side_text};

use crate::names::{link_name, node_name, pattern_name, sink_name};
use net_model::{Demand, Net};
use std::alloc::AllocError;

/// The most bytes of a name, with a byte before it or behind it.
pub const NAME_ROOM: usize = 33;

/// Adds the names of links to a text, each on a line of its own.
pub fn push_lines(text: &mut Vec<u8>, net: &Net, links: &[u32]) -> Result<(), AllocError>
    requires { All (λ link. link < length net.now.links) links.now }
    ensures { OnOk result (text.new.items ≡ text.old.items ++ link_lines net.now links.now) }
{
    for link in links {
        text.extend_from_slice(link_name(net, *link))?;
        text.push(b'\n')?;
    }
    Ok(())
}

/// Adds the names of links to a text, each after a space.
pub fn push_links(text: &mut Vec<u8>, net: &Net, links: &[u32]) -> Result<(), AllocError>
    requires { All (λ link. link < length net.now.links) links.now }
    ensures { OnOk result (text.new.items ≡ text.old.items ++ links_text net.now links.now) }
{
    for link in links {
        text.push(b' ')?;
        text.extend_from_slice(link_name(net, *link))?;
    }
    Ok(())
}

/// Adds the names of the nodes of a side to a text, each after a space.
pub fn push_side(text: &mut Vec<u8>, net: &Net, side: &[bool]) -> Result<(), AllocError>
    requires { length side.now ≡ length net.now.nodes }
    ensures { OnOk result (text.new.items ≡ text.old.items ++ side_text net.now side.now) }
{
    for (node, is_on) in side.iter().enumerate() {
        if *is_on {
            text.push(b' ')?;
            text.extend_from_slice(node_name(net, node))?;
        }
    }
    Ok(())
}

/// Adds the names of a demand's sink and pattern to a text.
pub fn push_demand(text: &mut Vec<u8>, net: &Net, demand: Demand) -> Result<(), AllocError>
    requires sink { demand.sink < length net.now.sinks }
    requires pattern { demand.pattern < length net.now.patterns }
    ensures { OnOk result (text.new.items ≡ text.old.items ++ demand_text net.now demand) }
{
    text.extend_from_slice(sink_name(net, demand.sink as usize))?;
    text.push(b' ')?;
    text.extend_from_slice(pattern_name(net, demand.pattern as usize))?;
    Ok(())
}
