//! Links that are hostile at random: what is put and written is what a plain model says.
ghost use Rattle.std.specs.Prelude.{◌≡◌, []};
ghost use Rattle.lif_outside.specs.Listed.{held_in};

use super::calls::{status_over, store_of};
use super::model::{Carried, Model, Plan, Taker};
use lif_outside::{Flight, ListLinks, MemSink, MemStore, Spoil};
use std::alloc::{AllocError, Global};
use std::test;
use std::thread::Threads;
use test_support::draws::Draws;
use test_support::files::{BUTTERFLY, TWO_WAYS};
use test_support::orders::{Script, hostile};
use test_support::runs::source_of;
use test_support::watched::{Calls, Watched, watch};

const BUTTERFLY_PLAN: Plan = Plan {
    file: BUTTERFLY,
    rate: 2,
    links: &[
        Carried::Rows(&[(0, 1)]),
        Carried::Rows(&[(1, 1)]),
        Carried::Links(&[(0, 1)]),
        Carried::Links(&[(1, 1)]),
        Carried::Links(&[(0, 1)]),
        Carried::Links(&[(1, 1)]),
        Carried::Links(&[(4, 1), (5, 1)]),
        Carried::Links(&[(6, 1)]),
        Carried::Links(&[(6, 1)]),
    ],
    takers: &[
        Taker {
            path: "out.t1",
            rows: &[&[(2, 1)], &[(2, 1), (7, 1)]],
        },
        Taker {
            path: "out.t2",
            rows: &[&[(3, 1), (8, 1)], &[(3, 1)]],
        },
    ],
};

const TWO_WAYS_PLAN: Plan = Plan {
    file: TWO_WAYS,
    rate: 1,
    links: &[
        Carried::Rows(&[(0, 1)]),
        Carried::Rows(&[(0, 1)]),
        Carried::Links(&[(0, 1)]),
        Carried::Links(&[(1, 1), (2, 2)]),
    ],
    takers: &[Taker {
        path: "out.t",
        rows: &[&[(3, 0xf4)]],
    }],
};

// What links do, and how many bytes go over them.
#[derive(Drop)]
struct Schedule {
    picks: Vec<u32>,
    keeps: Vec<u64>,
    spoils: Vec<Spoil>,
    fails: [u64; 2],
    length: usize,
}

// How `send` is called.
const SEND: &[&str] = &["send", "code", "none", "1", "src", "out"];

// A number that no call has.
const NEVER: u64 = 1_000_000;

// The number of a call that fails, where it is made: one in four times one is drawn.
fn fail(draws: &mut Draws) -> u64 {
    if draws.below(4) == 0 {
        u64::from(draws.below(200)) + 1
    } else {
        NEVER
    }
}

// Draws the places of the pairs that are given.
fn draw_picks(draws: &mut Draws, picks: &mut Vec<u32>) -> Result<(), AllocError> {
    for _ in 0..draws.below(200) {
        picks.push(draws.below(40))?;
    }
    Ok(())
}

// Draws the takes that keep their pair: one in so many.
fn draw_keeps(draws: &mut Draws, keeps: &mut Vec<u64>) -> Result<(), AllocError> {
    let one_in = draws.below(20) + 2;
    for nth in 1..200u64 {
        if draws.below(one_in) == 0 {
            keeps.push(nth)?;
        }
    }
    Ok(())
}

// Draws the bytes that are changed.
fn draw_spoils(draws: &mut Draws, spoils: &mut Vec<Spoil>) -> Result<(), AllocError> {
    for _ in 0..draws.below(8) {
        spoils.push(Spoil {
            nth: u64::from(draws.below(100)) + 1,
            byte: draws.below(128) >> draws.below(6),
            mask: draws.below(256) as u8,
        })?;
    }
    Ok(())
}

// Draws a schedule. One source in eight has two generations or more.
fn draw(draws: &mut Draws, schedule: &mut Schedule) -> Result<(), AllocError> {
    let longest = if draws.below(8) == 0 { 3000 } else { 500 };
    draw_picks(draws, &mut schedule.picks)?;
    draw_keeps(draws, &mut schedule.keeps)?;
    draw_spoils(draws, &mut schedule.spoils)?;
    schedule.fails = [fail(draws), fail(draws)];
    schedule.length = draws.below(longest) as usize;
    Ok(())
}

// The schedule of a seed.
fn drawn(alloc: Global, seed: u32) -> Option<Schedule> {
    let mut schedule = Schedule {
        picks: Vec::new(alloc),
        keeps: Vec::new(alloc),
        spoils: Vec::new(alloc),
        fails: [NEVER; 2],
        length: 0,
    };
    draw(&mut Draws::of(seed), &mut schedule).ok()?;
    Some(schedule)
}

// A flight of a take without the changes that were listed for it.
fn unspoiled(flight: &Flight, spoils: &[Spoil], nth: u64) -> Flight {
    let mut flight = *flight;
    for spoil in spoils {
        if spoil.nth == nth && spoil.byte < 128 {
            flight.frame[12 + spoil.byte as usize] ^= spoil.mask;
        }
    }
    flight
}

// Whether each pair that was given was put, but for the changes that were listed.
fn were_put(calls: &Calls, spoils: &[Spoil]) -> bool {
    let mut nth = 0u64;
    for flight in &calls.given {
        nth = nth.saturating_add(1);
        let put = unspoiled(flight, spoils, nth);
        if !calls.puts.contains(&put) {
            return false;
        }
    }
    true
}

// Whether a call failed exactly where a listed one was made, and it was the last.
fn fail_as_listed(calls: &Calls, fails: [u64; 2]) -> bool {
    let [put, take] = fails;
    let is_listed = calls.puts.len() as u64 == put || u64::from(calls.takes) == take;
    calls.late == 0 && calls.faults == u32::from(is_listed)
}

// Whether all pairs were put, given and taken that a run makes which is done, each kept one once more.
fn are_all(calls: &Calls, schedule: &Schedule, pairs: usize) -> bool {
    let given = calls.given.len();
    let kept = schedule
        .keeps
        .iter()
        .filter(|nth| **nth <= given as u64)
        .count();
    calls.puts.len() == pairs
        && given == pairs.saturating_add(kept)
        && calls.takes as usize == given.saturating_add(1)
}

// Whether the file of a sink is what the model says, or is empty where the run wasn't done.
fn file_is(
    alloc: Global,
    store: &MemStore,
    taker: &Taker,
    model: &Model,
    is_done: bool,
) -> Option<bool> {
    let mut file = Vec::new(alloc);
    if is_done {
        model.push_file(alloc, &mut file, taker)?;
    }
    Some(store.file(taker.path) == Some(file.as_slice()))
}

// Whether the file of each sink is.
fn files_are(
    alloc: Global,
    store: &MemStore,
    takers: &[Taker],
    model: &Model,
    is_done: bool,
) -> bool {
    takers.iter().all(|taker| file_is(alloc, store, taker, model, is_done) == Some(true))
}

// A schedule that a source goes by through a code.
#[derive(Clone, Copy)]
struct Run<'a> {
    plan: &'a Plan,
    schedule: &'a Schedule,
    source: &'a [u8],
}

// Whether a run ends with the status of this number and says this, where it had so many generations and is done, or links
// failed.
fn ends_so(
    alloc: Global,
    run: &Run<'_>,
    generations: usize,
    is_done: bool,
    status: u8,
    said: &[u8],
) -> Option<bool> {
    if !is_done {
        return Some(status == 15 && said == "link fault\n".as_bytes());
    }
    let (length, sinks) = (run.source.len(), run.plan.takers.len());
    let line = format!(in alloc;
        "sent {length} bytes in {generations} generations to {sinks} sinks\n"
    );
    let line = line.ok()?;
    Some(status == 0 && said == line.as_bytes())
}

// Whether the calls and the files of a run are as the model says.
fn is_as(alloc: Global, run: &Run<'_>, model: &Model, store: &MemStore, calls: &Calls) -> bool {
    let schedule = run.schedule;
    let is_done = calls.faults == 0;
    fail_as_listed(calls, schedule.fails)
        && (!is_done || are_all(calls, schedule, model.pairs()))
        && were_put(calls, &schedule.spoils)
        && model.are_due(alloc, &calls.puts)
        && files_are(alloc, store, run.plan.takers, model, is_done)
}

// Whether a run that ends so, after these calls, is as the model says.
fn is_as_modelled(
    alloc: Global,
    run: &Run<'_>,
    store: &MemStore,
    calls: &Calls,
    status: u8,
    said: &[u8],
) -> Option<bool> {
    let model = Model::of(alloc, run.plan, run.source, &calls.given).ok()?;
    let ends = ends_so(
        alloc,
        run,
        model.generations(),
        calls.faults == 0,
        status,
        said,
    )?;
    Some(ends && is_as(alloc, run, &model, store, calls))
}

// Whether it is from this store over these links.
fn ends_as_modelled<R: Threads + Sync>(
    rt: &R,
    alloc: Global,
    run: &Run<'_>,
    store: &mut MemStore,
    links: &mut Watched<ListLinks>,
) -> Option<bool>
    requires { (held_in links.old.links).flying ≡ [] }
{
    let mut say = MemSink::new(alloc, Vec::new(alloc));
    let status = status_over(rt, alloc, SEND, store, links, &mut say)?;
    is_as_modelled(alloc, run, store, &links.calls, status, say.bytes())
}

// The same, from a store of its own.
fn goes_as_modelled<R: Threads + Sync>(
    rt: &R,
    alloc: Global,
    run: &Run<'_>,
    links: &mut Watched<ListLinks>,
) -> Option<bool>
    requires { (held_in links.old.links).flying ≡ [] }
{
    let mut store = store_of(alloc, &[("code", run.plan.file), ("src", run.source)])?;
    ends_as_modelled(rt, alloc, run, &mut store, links)
}

// The same over links that go by the schedule.
fn runs_by_schedule<R: Threads + Sync>(rt: &R, alloc: Global, run: &Run<'_>) -> Option<bool> {
    let schedule = run.schedule;
    let [put, take] = schedule.fails;
    let script = Script {
        picks: &schedule.picks,
        keeps: &schedule.keeps,
        spoils: &schedule.spoils,
        put_fails: &[put],
        take_fails: &[take],
    };
    let mut links = watch(alloc, hostile(alloc, &script)?);
    goes_as_modelled(rt, alloc, run, &mut links)
}

// The same with a source as long as the schedule says.
fn runs_with_source<R: Threads + Sync>(
    rt: &R,
    alloc: Global,
    plan: &Plan,
    schedule: &Schedule,
) -> Option<bool> {
    let source = source_of(alloc, schedule.length)?;
    let run = Run {
        plan,
        schedule,
        source: &source,
    };
    runs_by_schedule(rt, alloc, &run)
}

// Whether the run of a seed through a code is as the model says.
fn runs_as_modelled<R: Threads + Sync>(
    rt: &R,
    alloc: Global,
    plan: &Plan,
    seed: u32,
) -> Option<bool> {
    let schedule = drawn(alloc, seed)?;
    runs_with_source(rt, alloc, plan, &schedule)
}

// The first seed of 5000 whose run through a code isn't.
fn first_wrong<R: Threads + Sync>(rt: &R, alloc: Global, plan: &Plan) -> Option<u32> {
    for seed in 0..5000 {
        if runs_as_modelled(rt, alloc, plan, seed) != Some(true) {
            return Some(seed);
        }
    }
    None
}

#[test]
fn ten_thousand_schedules_run_as_modelled(rt: HostRuntime) {
    for (name, plan) in [("butterfly", &BUTTERFLY_PLAN), ("two ways", &TWO_WAYS_PLAN)] {
        let wrong = first_wrong(&rt, rt.alloc(), plan);
        assert!(rt; wrong.is_none(), "{name}: seed {wrong:?}");
    }
}
