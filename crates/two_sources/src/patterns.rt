//! Patterns whose links get higher numbers.
ghost use Rattle.std.specs.Prelude.{◌≡◌, ◌+◌, ◌<◌, ◌^◌, IfOk, IsTrue, map, nat_lt};
ghost use Rattle.std.specs.List.{list_all};
ghost use Rattle.net_model.specs.Network.{are_patterns};
ghost use Rattle.two_sources.specs.Joined.{moved_pattern};

use crate::names::name;
use net_model::{LinkList, Pattern, PatternList};
use std::alloc::{AllocError, Global};

// Numbers, each higher by so many.
fn moved_numbers(alloc: Global, numbers: &[u32], by: u32) -> Result<LinkList, AllocError>
    requires { IsTrue (list_all (λ number. nat_lt (by + number) (2 ^ 32)) numbers.now) }
    ensures { IfOk result (λ moved. moved ≡ map (λ number. by + number) numbers.now) }
{
    let mut moved = Vec::with_capacity(alloc, numbers.len())?;
    for number in numbers {
        moved.push(by + *number)?;
    }
    Ok(LinkList::of(moved))
}

/// The patterns of a network of so many links, with each number of a link higher by so many.
pub(crate) fn moved_patterns(
    alloc: Global,
    patterns: &[Pattern],
    links: u32,
    by: u32,
) -> Result<PatternList, AllocError>
    requires patterns { IsTrue (are_patterns links patterns.now) }
    requires few { by + links < 2 ^ 32 }
    ensures { IfOk result (λ moved. moved ≡ map (moved_pattern by) patterns.now) }
{
    let mut moved = Vec::with_capacity(alloc, patterns.len())?;
    for pattern in patterns {
        moved.push(Pattern {
            name: name(alloc, pattern.name.bytes())?,
            links: moved_numbers(alloc, pattern.links.as_slice(), by)?,
        })?;
    }
    Ok(PatternList::of(moved))
}
