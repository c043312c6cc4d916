//! Links whose order is that of a generator's words.
ghost use Rattle.std.specs.Prelude.{◌≤◌, ◌≡◌, [], length};
ghost use Rattle.lif_outside.specs.Seeded.{held_by};

use super::{landed, wrong_put};
use lif_outside::{Flight, Links, SeedLinks};
use rand_core::utils::NextWord;
use rand_pcg::Pcg32;
use std::alloc::{AllocError, Global};

const ELEVEN: &[(u8, bool)] = &[
    (0, true),
    (1, true),
    (2, true),
    (3, true),
    (4, true),
    (5, true),
    (6, true),
    (7, true),
    (8, true),
    (9, true),
    (10, true),
];

fn flight(link: u8) -> Flight {
    Flight {
        link: u32::from(link),
        frame: [link; 140],
    }
}

// Takes a pair, and puts another in its place.
fn passed(links: &mut SeedLinks, link: u8) -> Option<Flight>
    requires { length (held_by links.old).flying ≤ (held_by links.old).room }
    ensures { length (held_by links.new).flying ≤ (held_by links.new).room }
{
    let Ok(Some(flight)) = links.take() else {
        return None;
    };
    match links.put(u32::from(link), &[link; 140]) {
        Ok(()) => Some(flight),
        Err(_) => None,
    }
}

// The first link before which another pair is given than the words say, where eleven fly.
fn wrong_pass(links: &mut SeedLinks) -> Option<u8>
    requires { length (held_by links.old).flying ≤ (held_by links.old).room }
{
    let mut words = Pcg32::new(7, 54);
    let mut flying = [0, 1, 2, 3, 4, 5, 6, 7, 8, 9, 10];
    for link in 11..111 {
        let place = words.next_word() as usize % 11;
        let next = flying[place];
        flying[place] = flying[10];
        flying[10] = link;
        if passed(links, link) != Some(flight(next)) {
            return Some(link);
        }
    }
    None
}

fn come_as_said(links: &mut SeedLinks, alloc: Global) -> Result<bool, AllocError>
    requires { (held_by links.old).flying ≡ [] }
{
    links.open(alloc, 7, 11)?;
    Ok(
        wrong_put(links, 11, ELEVEN).is_none()
            && wrong_pass(links).is_none()
            && landed(links, 12) == 11,
    )
}

fn are_given_as_said(alloc: Global) -> Result<bool, AllocError> {
    let mut links = SeedLinks::new(alloc);
    come_as_said(&mut links, alloc)
}

#[test]
fn pairs_come_as_the_words_say(rt: HostRuntime) {
    assert!(rt; are_given_as_said(rt.alloc()) == Ok(true));
}

// Nothing is given, also of links that are open, and then there is room for two.
fn come_only_then(links: &mut SeedLinks, alloc: Global) -> Result<bool, AllocError>
    requires { (held_by links.old).flying ≡ [] }
{
    let before = links.take();
    links.open(alloc, 1, 2)?;
    let after = links.take();
    let puts = [(3, true), (4, true), (5, false)];
    Ok(before == Ok(None) && after == Ok(None) && wrong_put(links, 2, &puts).is_none())
}

fn are_given_only_then(alloc: Global) -> Result<bool, AllocError> {
    let mut links = SeedLinks::new(alloc);
    come_only_then(&mut links, alloc)
}

#[test]
fn nothing_comes_where_nothing_flies(rt: HostRuntime) {
    assert!(rt; are_given_only_then(rt.alloc()) == Ok(true));
}
