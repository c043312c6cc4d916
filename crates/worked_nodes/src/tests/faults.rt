//! Links of which a call fails.
ghost use Rattle.std.specs.Prelude.{◌≡◌, []};
ghost use Rattle.gf_tables.specs.Kind.{IsOfKind};
ghost use Rattle.lif_outside.specs.Listed.{held_in};

use super::carrying::blocks_in;
use code_checker::Checked;
use generation_frame::ROW;
use gf_tables::{Field, FieldKind, Gf8};
use lif_outside::{Links, ListLinks};
use relay_runner::Runner;
use std::alloc::Global;
use std::test;
use std::thread::Threads;
use test_support::codes::checked_of;
use test_support::files::BUTTERFLY;
use test_support::orders::{PLAIN, Script, hostile};

// Whether a block is carried under the first pattern, where the runner says the same of its failure.
fn is_carried<F: Field, K: Links>(
    alloc: Global,
    checked: &Checked,
    block: &[u8],
    links: &mut K,
) -> Option<bool>
    requires field { IsOfKind checked.now.field F.SIZE F.BYTES F.MARK F.product }
    requires nothing_flies { K.flying links.old ≡ [] }
{
    let code = checked.code();
    let size = code.rate as usize * ROW;
    if code.net.patterns.is_empty() {
        return None;
    }
    let Some(1) = blocks_in(block, size) else {
        return None;
    };
    match Runner::<F>::open(alloc, checked, 0, 0, links) {
        Ok(mut runner) => {
            let carried = runner.carry(block, links).is_ok();
            (carried != runner.has_failed()).then_some(carried)
        }
        Err(_) => None,
    }
}

// The same over the field of 256 elements.
#[tactic(auto, unfolding(gf_tables::specs::Product::product))]
fn sevens_are_carried(alloc: Global, code: &Checked, links: &mut ListLinks) -> Option<bool>
    requires nothing_flies { (held_in links.old).flying ≡ [] }
{
    match code.code().field {
        FieldKind::Eight => is_carried::<Gf8, ListLinks>(alloc, code, &[7; 2048], links),
        FieldKind::Nine | FieldKind::Sixteen => None,
    }
}

// The same in the code of the butterfly.
fn butterfly_carries<R: Threads + Sync>(
    rt: &R,
    alloc: Global,
    links: &mut ListLinks,
) -> Option<bool>
    requires nothing_flies { (held_in links.old).flying ≡ [] }
{
    match checked_of(rt, alloc, BUTTERFLY) {
        Ok(code) => sevens_are_carried(alloc, &code, links),
        Err(_) => None,
    }
}

// The same, where one put and one take are to fail.
fn carries_with<R: Threads + Sync>(rt: &R, alloc: Global, put: u64, take: u64) -> Option<bool> {
    let fails = [put, take];
    let script = Script {
        put_fails: &fails[..1],
        take_fails: &fails[1..],
        ..PLAIN
    };
    match hostile(alloc, &script) {
        Some(mut links) => butterfly_carries(rt, alloc, &mut links),
        None => None,
    }
}

// The first number of a put or a take that isn't carried, or is, as it should be where it is to fail: 72 frames are put
// and taken, and the last take finds nothing.
fn wrong_number<R: Threads + Sync>(rt: &R, alloc: Global) -> Option<u64> {
    for nth in 1..=75 {
        let put = carries_with(rt, alloc, nth, 0);
        let take = carries_with(rt, alloc, 0, nth);
        if put != Some(nth > 72) || take != Some(nth > 73) {
            return Some(nth);
        }
    }
    None
}

#[test]
fn each_put_and_each_take_can_fail(rt: HostRuntime) {
    assert_eq!(rt; wrong_number(&rt, rt.alloc()), None);
}
