//! The links that words name, and what words decline.
ghost use Rattle.std.specs.Prelude.{◌≡◌, ◌⊎◌, ◌<◌, ℕ, List, All, IfErr, IfOk, None, OnOk, Some, length, map, string_bytes};
ghost use Rattle.std.specs.List.{list_any};
ghost use Rattle.std.specs.Str.{bytes_eq};
ghost use Rattle.name_texts.specs.Names.{link_name};
ghost use Rattle.top_base.specs.Given.{blind_given_in};
ghost use Rattle.top_base.specs.Inputs.{IsNoMemory};
ghost use Rattle.top_blind.specs.Blind.{declined, failed_in, links_named, unknown_among, unknown_link};

use name_texts::link_name;
use net_model::{LinkList, Net};
use node_program::Code;
use std::alloc::{AllocError, Global};
use top_base::{BlindWords, Line, Outcome, Status, link_named, output_paths, shared_path};

// Sees that each word is the name of a link.
fn see_known<'a>(words: &BlindWords<'a>, net: &Net) -> Result<(), Outcome<'a>>
    ensures known { OnOk result (unknown_among net.now (blind_given_in words.now).links ≡ None) }
    ensures unknown { IfErr result (λ outcome. (word : List ℕ)
        × (unknown_among net.now (blind_given_in words.now).links ≡ Some word)
        × (outcome ≡ unknown_link word)) }
{
    for word in words.links {
        if link_named(net, word.as_bytes()).is_none() {
            return Err(Outcome {
                status: Status::UnknownLink,
                line: Line::unknown_link(word.as_str()),
            });
        }
    }
    Ok(())
}

// Whether a word is the name of a link.
fn is_named(net: &Net, link: u32, words: &[String]) -> bool
    requires { link < length net.now.links }
    ensures { result
        ≡ list_any (bytes_eq (link_name net.now link)) (map string_bytes words.now) }
{
    let name = link_name(net, link);
    words.iter().any(|word| name == word.as_bytes())
}

// The links that words name, each once, in order.
fn links_named(alloc: Global, net: &Net, words: &[String]) -> Result<Vec<u32>, AllocError>
    ensures named { IfOk result
        (λ links. links.items ≡ links_named net.now (map string_bytes words.now)) }
    ensures within { IfOk result (λ links. All (λ link. link < length net.now.links) links.items) }
{
    let mut links = Vec::new(alloc);
    for link in 0..net.links.len() as u32 {
        if is_named(net, link, words) {
            links.push(link)?;
        }
    }
    Ok(links)
}

/// Finds the links that fail, and sees that each word names one and that no path that is written is one that is read.
pub fn find_failed<'a>(
    alloc: Global,
    words: &BlindWords<'a>,
    code: &Code,
) -> Result<LinkList, Outcome<'a>>
    ensures failed { IfOk result
        (λ failed. failed ≡ failed_in (blind_given_in words.now) code.now) }
    ensures within { IfOk result
        (λ failed. All (λ link. link < length code.now.net.links) failed) }
    ensures clear { OnOk result (declined (blind_given_in words.now) code.now ≡ None) }
    ensures refused { IfErr result (λ outcome. IsNoMemory outcome
        ⊎ (declined (blind_given_in words.now) code.now ≡ Some outcome)) }
{
    see_known(words, &code.net)?;
    let outputs = output_paths(alloc, words.prefix, &code.net)?;
    if let Some(path) = shared_path(&[words.code, words.source], &outputs) {
        return Err(Outcome {
            status: Status::SamePath,
            line: Line::same_path(path),
        });
    }
    Ok(LinkList::of(links_named(alloc, &code.net, words.links)?))
}
