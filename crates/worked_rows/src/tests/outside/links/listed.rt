//! Links that give what flies as lists say, and fail where they are told to.
ghost use Rattle.std.specs.Prelude.{◌≡◌, []};
ghost use Rattle.lif_outside.specs.Listed.{held_in};

use super::{landed, wrong_put};
use lif_outside::{Failed, Links, ListLinks, Spoil};
use std::alloc::{AllocError, Global};

// The second put fails and the seventh, and then there is no more room.
const PUTS: &[(u8, bool)] = &[
    (10, true),
    (11, false),
    (12, true),
    (13, true),
    (14, true),
    (15, true),
    (16, false),
    (17, true),
    (18, false),
];

// The links whose pairs are given.
const TAKES: &[Result<Option<u32>, Failed>] = &[
    Ok(Some(12)),
    Ok(Some(17)),
    Err(Failed),
    Ok(Some(14)),
    Ok(Some(10)),
    Ok(Some(13)),
    Ok(Some(15)),
    Ok(None),
];

// Takes by the trait, and says the link alone.
fn taken<L: Links>(links: &mut L) -> Result<Option<u32>, Failed> {
    Ok(links.take()?.map(|flight| flight.link))
}

// The first take that isn't answered so.
fn wrong_take(links: &mut ListLinks) -> Option<usize> {
    for (take, answer) in TAKES.iter().enumerate() {
        if taken(links) != *answer {
            return Some(take);
        }
    }
    None
}

fn come_as_listed(links: &mut ListLinks, alloc: Global) -> Result<bool, AllocError>
    requires { (held_in links.old).flying ≡ [] }
{
    links.open(alloc, 5, 6)?;
    Ok(wrong_put(links, 6, PUTS).is_none() && wrong_take(links).is_none())
}

fn are_given_as_listed(alloc: Global) -> Result<bool, AllocError> {
    let picks = vec![in alloc; 1, 9, 0, 2, 0]?;
    let put_fails = vec![in alloc; 2, 7]?;
    let take_fails = vec![in alloc; 3]?;
    let mut links = ListLinks::new(alloc, picks, put_fails, take_fails);
    come_as_listed(&mut links, alloc)
}

#[test]
fn pairs_come_as_listed(rt: HostRuntime) {
    assert!(rt; are_given_as_listed(rt.alloc()) == Ok(true));
}

fn all_come(links: &mut ListLinks, alloc: Global) -> Result<bool, AllocError>
    requires { (held_in links.old).flying ≡ [] }
{
    links.open(alloc, 0, 4)?;
    let puts = [(1, true), (2, true), (3, true), (4, true)];
    Ok(wrong_put(links, 4, &puts).is_none() && landed(links, 5) == 4)
}

fn are_all_given(alloc: Global) -> Result<bool, AllocError> {
    let mut links = ListLinks::new(alloc, Vec::new(alloc), Vec::new(alloc), Vec::new(alloc));
    all_come(&mut links, alloc)
}

#[test]
fn what_was_put_is_given(rt: HostRuntime) {
    assert!(rt; are_all_given(rt.alloc()) == Ok(true));
}

// The links and the first two bytes of the payloads that are given: the second take keeps its pair, and changes a byte.
const CHANGED: &[Result<Option<(u32, u8, u8)>, Failed>] = &[
    Ok(Some((10, 10, 10))),
    Ok(Some((11, 11, 0xfb))),
    Ok(Some((11, 11, 11))),
    Ok(None),
];

// Takes by the trait, and says the link with the first two bytes of the payload.
fn given<L: Links>(links: &mut L) -> Result<Option<(u32, u8, u8)>, Failed> {
    Ok(
        links
            .take()?
            .map(|flight| (flight.link, flight.frame[12], flight.frame[13])),
    )
}

// The first take that isn't answered so.
fn wrong_change(links: &mut ListLinks) -> Option<usize> {
    for (take, answer) in CHANGED.iter().enumerate() {
        if given(links) != *answer {
            return Some(take);
        }
    }
    None
}

fn come_changed(links: &mut ListLinks, alloc: Global) -> Result<bool, AllocError>
    requires { (held_in links.old).flying ≡ [] }
{
    links.open(alloc, 5, 6)?;
    let puts = [(10, true), (11, true)];
    Ok(wrong_put(links, 6, &puts).is_none() && wrong_change(links).is_none())
}

fn are_kept_and_changed(alloc: Global) -> Result<bool, AllocError> {
    let spoil = Spoil {
        nth: 2,
        byte: 1,
        mask: 0xf0,
    };
    let keeps = vec![in alloc; 2]?;
    let spoils = vec![in alloc; spoil]?;
    let none = Vec::new(alloc);
    let put_fails = Vec::new(alloc);
    let mut links = ListLinks::hostile(alloc, none, keeps, spoils, put_fails, Vec::new(alloc));
    come_changed(&mut links, alloc)
}

#[test]
fn listed_takes_keep_their_pair_and_change_it(rt: HostRuntime) {
    assert!(rt; are_kept_and_changed(rt.alloc()) == Ok(true));
}
