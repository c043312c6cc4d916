//! A runner that is stepped between the windows that it carries.
ghost use Rattle.std.specs.Prelude.{◌≡◌, ◌≤◌, ◌*◌, ◌+◌, ◌^◌, [], length, false, true};
ghost use Rattle.coded_traffic.specs.Traffic.{room_for};
ghost use Rattle.generation_frame.specs.Blocks.{row_bytes};
ghost use Rattle.gf_tables.specs.Kind.{IsOfKind};
ghost use Rattle.relay_runner.specs.Running.{StandAt};

use super::carrying::carries_window;
use code_checker::Checked;
use generation_frame::ROW;
use gf_tables::{Field, FieldKind, Gf8};
use lif_outside::{Links, NoGate, SeedLinks};
use relay_runner::{Runner, Turn};
use std::alloc::Global;
use std::test;
use std::thread::Threads;
use test_support::codes::checked_of;
use test_support::files::BUTTERFLY;

// Whether a step is quiet where nothing flies, and a window of blocks comes to every sink then.
fn carries_behind<F: Field + Send + Sync, K: Links, R: Threads + Sync>(
    rt: &R,
    runner: &mut Runner<'_, F>,
    sinks: u32,
    window: &[u8],
    links: &mut K,
    into: &mut [u8],
) -> bool
    requires works { runner.old.has_failed ≡ false }
    requires stand { StandAt runner.old.code runner.old.pattern runner.old.relays
        runner.old.sinks [] }
    requires nothing_flies { K.flying links.old ≡ [] }
    requires room { room_for runner.old.code ≤ K.room links.old }
    requires sinks { sinks ≡ length runner.old.code.net.sinks }
    requires next { runner.old.next + 4 ≤ 2 ^ 32 }
    requires into { length into.old ≡ runner.old.code.rate * row_bytes }
    ensures code { runner.new.code ≡ runner.old.code }
    ensures works { result ≡ true → runner.new.has_failed ≡ false }
    ensures stand { result ≡ true → StandAt runner.new.code runner.new.pattern runner.new.relays
        runner.new.sinks [] }
    ensures nothing_flies { result ≡ true → K.flying links.new ≡ [] }
    ensures room { result ≡ true → room_for runner.old.code ≤ K.room links.new }
    ensures next { runner.new.next ≤ runner.old.next + 4 }
    ensures into { length into.new ≡ length into.old }
{
    match runner.turn(links) {
        Ok(Turn::Quiet) => carries_window(rt, runner, sinks, window, links, into, &NoGate),
        _ => false,
    }
}

// Whether it is so of two windows, one after another, under the first pattern.
fn carries_both<F: Field + Send + Sync, K: Links, R: Threads + Sync>(
    rt: &R,
    alloc: Global,
    checked: &Checked,
    windows: [&[u8]; 2],
    links: &mut K,
) -> bool
    requires field { IsOfKind checked.now.field F.SIZE F.BYTES F.MARK F.product }
    requires nothing_flies { K.flying links.old ≡ [] }
{
    let code = checked.code();
    if code.net.patterns.is_empty() {
        return false;
    }
    let sinks = code.net.sinks.len() as u32;
    let Ok(mut into) = vec![in alloc; 0u8; code.rate as usize * ROW] else {
        return false;
    };
    match Runner::<F>::open(alloc, checked, 0, 1, links) {
        Ok(mut runner) => {
            carries_behind(rt, &mut runner, sinks, windows[0], links, &mut into)
                && carries_behind(rt, &mut runner, sinks, windows[1], links, &mut into)
        }
        Err(_) => false,
    }
}

// The same over the field of 256 elements.
#[tactic(auto, unfolding(gf_tables::specs::Product::product))]
fn code_carries<R: Threads + Sync>(rt: &R, alloc: Global, code: &Checked) -> bool {
    let mut links = SeedLinks::new(alloc);
    match code.code().field {
        FieldKind::Eight => {
            let windows: [&[u8]; 2] = [&[7; 4096], &[9; 2048]];
            carries_both::<Gf8, SeedLinks, R>(rt, alloc, code, windows, &mut links)
        }
        FieldKind::Nine | FieldKind::Sixteen => false,
    }
}

// The same of the code of the butterfly.
fn butterfly_carries<R: Threads + Sync>(rt: &R, alloc: Global) -> bool {
    match checked_of(rt, alloc, BUTTERFLY) {
        Ok(code) => code_carries(rt, alloc, &code),
        Err(_) => false,
    }
}

#[test]
fn a_runner_is_quiet_between_windows(rt: HostRuntime) {
    assert!(rt; butterfly_carries(&rt, rt.alloc()));
}
