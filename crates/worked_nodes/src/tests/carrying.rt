//! Windows of blocks through a code, over any links.
ghost use Rattle.std.specs.Prelude.{◌≡◌, ◌<◌, ◌≤◌, ◌+◌, ◌*◌, ◌/◌, ◌^◌, [], IfSome, length, false, true};
ghost use Rattle.coded_traffic.specs.Traffic.{room_for};
ghost use Rattle.generation_frame.specs.Blocks.{most_blocks, row_bytes};
ghost use Rattle.gf_tables.specs.Kind.{IsOfKind};
ghost use Rattle.relay_runner.specs.Decoding.{HasDecoded};
ghost use Rattle.relay_runner.specs.Running.{StandAt};

use code_checker::Checked;
use generation_frame::ROW;
use gf_tables::{Field, FieldKind, Gf8, Gf9, Gf16};
use lif_outside::{Gate, Links, NoGate};
use relay_runner::Runner;
use std::alloc::Global;
use std::thread::Threads;
use test_support::codes::checked_of;

/// How a source goes through a code: under which pattern, by which number of the links, how many blocks of it at a time, and in
/// how many windows.
#[derive(Clone, Copy)]
pub(super) struct Course {
    pub pattern: u32,
    pub seed: u64,
    pub blocks: u32,
    pub windows: u32,
}

// Whether every sink decodes the block at a place of the window carried last.
fn sinks_have<F: Field>(
    runner: &Runner<'_, F>,
    sinks: u32,
    place: u32,
    block: &[u8],
    into: &mut [u8],
) -> bool
    requires decoded { HasDecoded runner.now }
    requires sinks { sinks ≡ length runner.now.code.net.sinks }
    requires place { place < runner.now.count }
    requires room { length into.old ≡ runner.now.code.rate * row_bytes }
    ensures { length into.new ≡ length into.old }
{
    for sink in 0..sinks {
        into.fill(0x5a);
        runner.block(sink, place, into);
        if *into != *block {
            return false;
        }
    }
    true
}

// Whether every sink decodes all blocks of the window carried last.
fn sinks_have_all<F: Field>(
    runner: &Runner<'_, F>,
    sinks: u32,
    count: u32,
    window: &[u8],
    into: &mut [u8],
) -> bool
    requires decoded { HasDecoded runner.now }
    requires sinks { sinks ≡ length runner.now.code.net.sinks }
    requires count { count ≡ runner.now.count }
    requires room { length into.old ≡ runner.now.code.rate * row_bytes }
    ensures { length into.new ≡ length into.old }
{
    let mut rest = window;
    for place in 0..count {
        match rest.split_at_checked(into.len()) {
            Some((block, behind)) => {
                if !sinks_have(runner, sinks, place, block, into) {
                    return false;
                }
                rest = behind;
            }
            None => return false,
        }
    }
    true
}

/// How many blocks of a size these bytes are, where they are 1 to 4 whole ones.
pub(super) fn blocks_in(bytes: &[u8], size: usize) -> Option<u32>
    ensures some_blocks { IfSome result (λ count. 1 ≤ count) }
    ensures few_blocks { IfSome result (λ count. count ≤ most_blocks) }
    ensures count { IfSome result (λ count. count ≡ length bytes.now / size) }
    ensures whole { IfSome result (λ count. length bytes.now ≡ count * size) }
{
    let count = bytes.len().checked_div(size)?;
    if count == 0 || count > 4 || bytes.len() != count * size {
        return None;
    }
    Some(count as u32)
}

/// Whether a window of blocks comes to every sink.
pub(super) fn carries_window<F: Field + Send + Sync, K: Links, G: Gate + Sync, R: Threads + Sync>(
    rt: &R,
    runner: &mut Runner<'_, F>,
    sinks: u32,
    window: &[u8],
    links: &mut K,
    into: &mut [u8],
    gate: &G,
) -> bool
    requires works { runner.old.has_failed ≡ false }
    requires nothing_flies { K.flying links.old ≡ [] }
    requires room { room_for runner.old.code ≤ K.room links.old }
    requires sinks { sinks ≡ length runner.old.code.net.sinks }
    requires next { runner.old.next + 4 ≤ 2 ^ 32 }
    requires into { length into.old ≡ runner.old.code.rate * row_bytes }
    ensures code { runner.new.code ≡ runner.old.code }
    ensures works { result ≡ true → runner.new.has_failed ≡ false }
    ensures stand { result ≡ true → StandAt runner.new.code runner.new.pattern runner.new.relays
        runner.new.sinks [] }
    ensures nothing_flies { result ≡ true → K.flying links.new ≡ [] }
    ensures room { result ≡ true → room_for runner.old.code ≤ K.room links.new }
    ensures next { runner.new.next ≤ runner.old.next + 4 }
    ensures into { length into.new ≡ length into.old }
{
    let Some(count) = blocks_in(window, into.len()) else {
        return false;
    };
    if runner.carry(window, links).is_err() {
        return false;
    }
    runner.decode_all(rt, gate);
    sinks_have_all(runner, sinks, count, window, into)
}

// The same of all windows of a source.
fn carries_windows<F: Field + Send + Sync, K: Links, G: Gate + Sync, R: Threads + Sync>(
    rt: &R,
    runner: &mut Runner<'_, F>,
    sinks: u32,
    course: Course,
    links: &mut K,
    source: &[u8],
    into: &mut [u8],
    gate: &G,
) -> bool
    requires works { runner.old.has_failed ≡ false }
    requires nothing_flies { K.flying links.old ≡ [] }
    requires room { room_for runner.old.code ≤ K.room links.old }
    requires sinks { sinks ≡ length runner.old.code.net.sinks }
    requires next { runner.old.next ≡ 0 }
    requires into { length into.old ≡ runner.old.code.rate * row_bytes }
{
    if course.windows > 1000 {
        return false;
    }
    let width = (course.blocks as usize).saturating_mul(into.len());
    let mut rest = source;
    'windows: for turn in 0..course.windows {
        match rest.split_at_checked(width) {
            Some((window, behind)) => {
                if !carries_window(rt, runner, sinks, window, links, into, gate) {
                    return false;
                }
                rest = behind;
            }
            None => return false,
        }
    }
    true
}

// The same, over the code's field.
fn carries_over<F: Field + Send + Sync, K: Links, G: Gate + Sync, R: Threads + Sync>(
    rt: &R,
    alloc: Global,
    checked: &Checked,
    course: Course,
    links: &mut K,
    source: &[u8],
    gate: &G,
) -> bool
    requires field { IsOfKind checked.now.field F.SIZE F.BYTES F.MARK F.product }
    requires nothing_flies { K.flying links.old ≡ [] }
{
    let code = checked.code();
    if course.pattern as usize >= code.net.patterns.len() {
        return false;
    }
    let sinks = code.net.sinks.len() as u32;
    let Ok(mut into) = vec![in alloc; 0u8; code.rate as usize * ROW] else {
        return false;
    };
    match Runner::<F>::open(alloc, checked, course.pattern, course.seed, links) {
        Ok(mut runner) => {
            carries_windows(
                rt,
                &mut runner,
                sinks,
                course,
                links,
                source,
                &mut into,
                gate,
            )
        }
        Err(_) => false,
    }
}

/// Whether all windows of a source come to every sink of a code.
#[tactic(auto, unfolding(gf_tables::specs::Product::product))]
pub(super) fn carries<K: Links, G: Gate + Sync, R: Threads + Sync>(
    rt: &R,
    alloc: Global,
    code: &Checked,
    course: Course,
    links: &mut K,
    source: &[u8],
    gate: &G,
) -> bool
    requires nothing_flies { K.flying links.old ≡ [] }
{
    match code.code().field {
        FieldKind::Eight => {
            carries_over::<Gf8, K, G, R>(rt, alloc, code, course, links, source, gate)
        }
        FieldKind::Nine => {
            carries_over::<Gf9, K, G, R>(rt, alloc, code, course, links, source, gate)
        }
        FieldKind::Sixteen => {
            carries_over::<Gf16, K, G, R>(rt, alloc, code, course, links, source, gate)
        }
    }
}

/// Whether they come to every sink of the code of a file.
pub(super) fn file_carries<K: Links, R: Threads + Sync>(
    rt: &R,
    alloc: Global,
    file: &[u8],
    course: Course,
    links: &mut K,
    source: &[u8],
) -> bool
    requires nothing_flies { K.flying links.old ≡ [] }
{
    match checked_of(rt, alloc, file) {
        Ok(code) => carries(rt, alloc, &code, course, links, source, &NoGate),
        Err(_) => false,
    }
}
