//! The paths of the sinks' files.
ghost use Rattle.std.specs.Prelude.{◌≡◌, IfOk, find, map, string_bytes};
ghost use Rattle.std.specs.Option.{option_map};
ghost use Rattle.std.specs.Str.{bytes_eq};
ghost use Rattle.lif_outside.specs.Files.{AreDistinct};
ghost use Rattle.net_reader.specs.Words.{texts_of};
ghost use Rattle.top_base.specs.Paths.{both_paths, output_paths, shared_path};

use crate::named::dotted_path;
use name_texts::sink_name;
use net_model::Net;
use std::alloc::{AllocError, Global};

/// The paths of the files of all sinks, in their order.
pub fn output_paths(alloc: Global, prefix: &str, net: &Net) -> Result<Vec<String>, AllocError>
    ensures paths { IfOk result
        (λ paths. map string_bytes paths.items ≡ output_paths prefix.now net.now) }
    ensures distinct { IfOk result (λ paths. AreDistinct (map string_bytes paths.items)) }
{
    let mut paths = Vec::with_capacity(alloc, net.sinks.len())?;
    for place in 0..net.sinks.len() {
        paths.push(dotted_path(alloc, prefix, sink_name(net, place))?)?;
    }
    Ok(paths)
}

/// The paths of the two files of each sink, in the order of the sinks.
pub fn both_output_paths(alloc: Global, prefix: &str, net: &Net) -> Result<Vec<String>, AllocError>
    ensures paths { IfOk result
        (λ paths. map string_bytes paths.items ≡ both_paths prefix.now net.now) }
    ensures distinct { IfOk result (λ paths. AreDistinct (map string_bytes paths.items)) }
{
    let mut both = Vec::with_capacity(alloc, 2 * net.sinks.len())?;
    for place in 0..net.sinks.len() {
        let path = dotted_path(alloc, prefix, sink_name(net, place))?;
        both.push(dotted_path(alloc, path.as_str(), b"1")?)?;
        both.push(dotted_path(alloc, path.as_str(), b"2")?)?;
    }
    Ok(both)
}

// The input that has this path.
fn input_at<'a>(inputs: &[&'a str], path: &str) -> Option<&'a str>
    ensures { option_map (λ input. input.now) result
        ≡ find (bytes_eq path.now) (texts_of inputs.now) }
{
    for input in inputs {
        if path == *input {
            return Some(*input);
        }
    }
    None
}

/// The first output's path that is that of an input. No two outputs' paths are equal.
pub fn shared_path<'a>(inputs: &[&'a str], outputs: &[String]) -> Option<&'a str>
    requires distinct { AreDistinct (map string_bytes outputs.now) }
    ensures { option_map (λ path. path.now) result
        ≡ shared_path (texts_of inputs.now) (map string_bytes outputs.now) }
{
    for output in outputs {
        if let Some(path) = input_at(inputs, output.as_str()) {
            return Some(path);
        }
    }
    None
}
