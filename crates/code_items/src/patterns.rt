//! Patterns.
ghost use Rattle.std.specs.Prelude.{◌≡◌, ◌≤◌, ◌+◌, ◌*◌, ◌++◌, ◌∷◌, [], length, IfOk, IsOkUnless};
ghost use Rattle.failure_patterns.specs.UsedField.{pair_demands};
ghost use Rattle.net_model.specs.Limits.{most_nodes};
ghost use Rattle.code_items.specs.Reading.{repeated_at, failed_at, pattern_at, none_pattern, pattern_count_at, counted_patterns_at, patterns_at};
ghost use Rattle.code_items.specs.Gives.{Reads, ReadsAll, ReadsBehind};
ghost use Rattle.code_items.specs.declared.refusal.CodeRefusal.TheVariants.{OutOfMemory};

use crate::CodeRefusal;
use crate::items::{number, positive_count};
use crate::names::name;
use crate::rest::Rest;
use crate::rising::is_above_last;
use failure_patterns::PAIR_DEMANDS;
use name_index::Names;
use net_model::{LinkList, MOST_LISTED, Name, Pattern, PatternList};
use std::alloc::Global;

/// The name of the pattern without links.
const NONE: &[u8] = b"none";

// One link of a pattern.
#[tactic(auto, using(crate::proofs::Checks::number_checked))]
fn failed<'a>(links: usize, before: &[u32], rest: Rest<'a>) -> Result<(u32, Rest<'a>), CodeRefusal>
    ensures { Reads result (failed_at links before.now) rest.entry }
{
    let (link, after) = number(rest)?;
    if usize::from(link) >= links {
        return Err(CodeRefusal::BadIndex { at: rest.at });
    }
    if !is_above_last(before, u32::from(link)) {
        return Err(CodeRefusal::NotRising { at: rest.at });
    }
    Ok((u32::from(link), after))
}

// So many links of a pattern.
fn counted_failed<'a>(
    alloc: Global,
    links: usize,
    count: u16,
    start: Rest<'a>,
) -> Result<(Vec<u32>, Rest<'a>), CodeRefusal>
    ensures { ReadsAll result (repeated_at (failed_at links) count []) start.entry }
{
    let mut all = Vec::with_capacity(alloc, usize::from(count))?;
    let mut rest = start;
    for _ in 0..count {
        let (one, after) = failed(links, &all, rest)?;
        all.push(one)?;
        rest = after;
    }
    Ok((all, rest))
}

// One listed pattern.
#[tactic(auto, unfolding(crate::specs::Reading::pattern_at))]
fn pattern<'a>(
    alloc: Global,
    links: usize,
    names: &mut Names<'a>,
    rest: Rest<'a>,
) -> Result<(Pattern, Rest<'a>), CodeRefusal>
    ensures gives { ReadsBehind (pattern_at links) names.old result rest.entry }
    ensures named { IfOk result (λ x. names.new ≡ names.old ++ x.0.name ∷ []) }
{
    let (name, rest) = name(alloc, rest, names)?;
    let (count, rest) = positive_count(rest, links)?;
    let (failed, rest) = counted_failed(alloc, links, count, rest)?;
    let links = LinkList::of(failed);
    Ok((Pattern { name, links }, rest))
}

// The pattern without links.
fn no_links(alloc: Global) -> Result<Pattern, CodeRefusal>
    ensures gives { IfOk result (λ pattern. pattern ≡ none_pattern) }
    ensures refused { IsOkUnless result OutOfMemory }
{
    match Name::of(alloc, NONE) {
        Ok(name) => Ok(Pattern {
            name,
            links: LinkList::of(Vec::new(alloc)),
        }),
        Err(_) => Err(CodeRefusal::OutOfMemory),
    }
}

// The pattern `none`, and so many listed ones, whose names are added to the names.
fn named_patterns<'a>(
    alloc: Global,
    links: usize,
    count: u16,
    names: &mut Names<'a>,
    start: Rest<'a>,
) -> Result<(Vec<Pattern>, Rest<'a>), CodeRefusal>
    requires { names.old ≡ [] }
    ensures gives { ReadsAll result (counted_patterns_at links count) start.entry }
    ensures len { IfOk result (λ x. length x.0.items ≡ count + 1) }
{
    let mut patterns = Vec::with_capacity(alloc, usize::from(count) + 1)?;
    patterns.push(no_links(alloc)?)?;
    names.add(NONE)?;
    let mut rest = start;
    for _ in 0..count {
        let (one, after) = pattern(alloc, links, names, rest)?;
        patterns.push(one)?;
        rest = after;
    }
    Ok((patterns, rest))
}

// The pattern `none`, and so many listed ones.
fn counted_patterns<'a>(
    alloc: Global,
    links: usize,
    count: u16,
    start: Rest<'a>,
) -> Result<(Vec<Pattern>, Rest<'a>), CodeRefusal>
    ensures gives { ReadsAll result (counted_patterns_at links count) start.entry }
    ensures len { IfOk result (λ x. length x.0.items ≡ count + 1) }
{
    let mut names = Names::new(alloc);
    named_patterns(alloc, links, count, &mut names, start)
}

// The number of the listed patterns.
#[tactic(auto, using(crate::proofs::Checks::number_checked))]
fn pattern_count<'a>(sinks: usize, rest: Rest<'a>) -> Result<(u16, Rest<'a>), CodeRefusal>
    requires { sinks ≤ most_nodes }
    ensures gives { Reads result (pattern_count_at sinks) rest.entry }
    ensures few_demands { IfOk result (λ x. sinks * (x.0 + 1) ≤ pair_demands) }
{
    let (count, after) = number(rest)?;
    let listed = usize::from(count);
    if listed > MOST_LISTED || (sinks * (listed + 1)) as u64 > PAIR_DEMANDS {
        return Err(CodeRefusal::TooMany { at: rest.at });
    }
    Ok((count, after))
}

/// The pattern `none` and the listed patterns, behind the number of these.
#[tactic(auto, unfolding(crate::specs::Reading::patterns_at))]
pub(crate) fn patterns<'a>(
    alloc: Global,
    links: usize,
    sinks: usize,
    rest: Rest<'a>,
) -> Result<(PatternList, Rest<'a>), CodeRefusal>
    requires { sinks ≤ most_nodes }
    ensures gives { Reads result (patterns_at links sinks) rest.entry }
    ensures few_demands { IfOk result (λ x. sinks * length x.0 ≤ pair_demands) }
{
    let (count, rest) = pattern_count(sinks, rest)?;
    let (patterns, rest) = counted_patterns(alloc, links, count, rest)?;
    Ok((PatternList::of(patterns), rest))
}
