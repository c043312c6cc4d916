//! What the words of a call name, and paths that are shared.
ghost use Rattle.std.specs.Prelude.{◌≡◌, ◌⊎◌, ◌<◌, ◌∷◌, [], ℕ, List, All, IfErr, IfOk, None, OnOk, Some, length, map, string_bytes};
ghost use Rattle.lif_outside.specs.Files.{AreDistinct};
ghost use Rattle.top_base.specs.Given.{node_given_in};
ghost use Rattle.top_base.specs.Inputs.{IsNoMemory};
ghost use Rattle.top_base.specs.Making.{shares};
ghost use Rattle.top_base.specs.Paths.{shared_path};
ghost use Rattle.top_nodes.specs.Declined.{unknown_node, unknown_pattern};
ghost use Rattle.top_nodes.specs.Files.{stream_path, stream_paths};

use net_model::Net;
use std::alloc::{AllocError, Global};
use top_base::{Line, NodeWords, Outcome, Status, dotted_path};

/// No pattern has the name.
pub fn unknown_pattern<'a>(words: &NodeWords<'a>) -> Outcome<'a>
    ensures { result ≡ unknown_pattern (node_given_in words.now) }
{
    Outcome {
        status: Status::UnknownPattern,
        line: Line::unknown_pattern(words.pattern),
    }
}

/// No node has the name, or no sink.
pub fn unknown_node<'a>(words: &NodeWords<'a>) -> Outcome<'a>
    ensures { result ≡ unknown_node (node_given_in words.now) }
{
    Outcome {
        status: Status::UnknownNode,
        line: Line::unknown_node(words.node),
    }
}

/// The path of the stream of a link.
pub fn stream_path(alloc: Global, prefix: &str, net: &Net, link: u32) -> Result<String, AllocError>
    requires { link < length net.now.links }
    ensures { IfOk result (λ path. string_bytes path ≡ stream_path prefix.now net.now link) }
{
    dotted_path(alloc, prefix, net.links.at(link as usize).name.bytes())
}

/// The paths of the streams of links.
pub fn stream_paths(
    alloc: Global,
    prefix: &str,
    net: &Net,
    links: &[u32],
) -> Result<Vec<String>, AllocError>
    requires { All (λ link. link < length net.now.links) links.now }
    ensures { IfOk result
        (λ paths. map string_bytes paths.items ≡ stream_paths prefix.now net.now links.now) }
{
    let mut paths = Vec::with_capacity(alloc, links.len())?;
    for link in links {
        paths.push(stream_path(alloc, prefix, net, *link)?)?;
    }
    Ok(paths)
}

/// The list of one path.
pub fn one_path(alloc: Global, path: &str) -> Result<Vec<String>, AllocError>
    ensures { IfOk result (λ paths. map string_bytes paths.items ≡ path.now ∷ []) }
{
    let mut paths = Vec::with_capacity(alloc, 1)?;
    paths.push(String::from_str(alloc, path)?)?;
    Ok(paths)
}

// The outcome of a path that is shared.
fn same_path<'a>(alloc: Global, path: &str) -> Result<Outcome<'a>, AllocError>
    ensures { IfOk result (λ outcome. outcome ≡ shares path.now) }
{
    let mut line = Vec::with_capacity(alloc, path.len().saturating_add(16))?;
    line.extend_from_slice(b"same path: ")?;
    line.extend_from_slice(path.as_bytes())?;
    line.push(b'\n')?;
    Ok(Outcome {
        status: Status::SamePath,
        line: Line::long(line),
    })
}

/// Sees that no output's path is that of the code or of an input. No two outputs' paths are equal.
pub fn see_apart<'a>(
    alloc: Global,
    code: &str,
    inputs: &[String],
    outputs: &[String],
) -> Result<(), Outcome<'a>>
    requires distinct { AreDistinct (map string_bytes outputs.now) }
    ensures apart { OnOk result
        (shared_path (code.now ∷ map string_bytes inputs.now) (map string_bytes outputs.now) ≡ None) }
    ensures shared { IfErr result (λ outcome. IsNoMemory outcome ⊎ ((path : List ℕ)
        × (shared_path (code.now ∷ map string_bytes inputs.now) (map string_bytes outputs.now) ≡ Some path)
        × (outcome ≡ shares path))) }
{
    for output in outputs {
        if output.as_str() == code || inputs.iter().any(|input| output.as_str() == input.as_str()) {
            return Err(same_path(alloc, output.as_str())?);
        }
    }
    Ok(())
}
