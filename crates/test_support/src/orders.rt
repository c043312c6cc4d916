//! Orders in which links give what flies, and what else links may do.
ghost use Rattle.std.specs.Prelude.{◌≡◌, [], All, IfSome, IsTrue};
ghost use Rattle.std.specs.List.Sorted.{IsStrictlyIncreasing};
ghost use Rattle.lif_outside.specs.Listed.{held_in};
ghost use Rattle.lif_outside.specs.Spoils.{is_in_payload};

use lif_outside::{ListLinks, Spoil};
use std::alloc::Global;

/// What links do: the places of the pairs that their takes give, the takes that keep their pair, the bytes that takes change,
/// and the puts and the takes that fail.
#[derive(Clone, Copy)]
pub struct Script<'a> {
    pub picks: &'a [u32],
    pub keeps: &'a [u64],
    pub spoils: &'a [Spoil],
    pub put_fails: &'a [u64],
    pub take_fails: &'a [u64],
}

/// The oldest pair is given, as it was put, and leaves. No call fails.
pub const PLAIN: Script<'static> = Script {
    picks: &[],
    keeps: &[],
    spoils: &[],
    put_fails: &[],
    take_fails: &[],
};

// Whether each number is below the next.
fn rises(numbers: &[u64]) -> bool
    ensures { IsTrue result → IsStrictlyIncreasing numbers.now }
{
    for place in 1..numbers.len() {
        if numbers[place - 1] >= numbers[place] {
            return false;
        }
    }
    true
}

// Whether each byte is one of a payload.
fn are_in_payload(spoils: &[Spoil]) -> bool
    ensures { IsTrue result → All is_in_payload spoils.now }
{
    spoils.iter().all(|spoil| spoil.byte < 128)
}

/// Links that follow a script.
pub fn hostile(alloc: Global, script: &Script<'_>) -> Option<ListLinks>
    ensures { IfSome result (λ links. (held_in links).flying ≡ []) }
{
    if !rises(script.keeps) || !are_in_payload(script.spoils) {
        return None;
    }
    let picks = Vec::from_slice(alloc, script.picks).ok()?;
    let keeps = Vec::from_slice(alloc, script.keeps).ok()?;
    let spoils = Vec::from_slice(alloc, script.spoils).ok()?;
    let put_fails = Vec::from_slice(alloc, script.put_fails).ok()?;
    let take_fails = Vec::from_slice(alloc, script.take_fails).ok()?;
    Some(ListLinks::hostile(alloc, picks, keeps, spoils, put_fails, take_fails))
}

/// Links that give the pair at a listed place, for the first 400 takes: by rule 0 the oldest, by rule 1 the newest, by any
/// other one in the middle.
pub fn listed(alloc: Global, rule: u32) -> Option<ListLinks>
    ensures { IfSome result (λ links. (held_in links).flying ≡ []) }
{
    let mut picks = Vec::with_capacity(alloc, 400).ok()?;
    for take in 0..400u32 {
        picks
            .push(match rule {
                0 => 0,
                1 => u32::MAX,
                _ => take * 7 % 13,
            })
            .ok()?;
    }
    Some(ListLinks::new(alloc, picks, Vec::new(alloc), Vec::new(alloc)))
}
