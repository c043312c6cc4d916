//! Counters of steps: searches that count, a counter that says what was counted, and one that takes no bytes.
ghost use Rattle.std.specs.Prelude.{◌≡◌, ◌+◌, ◌<◌, length};
ghost use Rattle.counted_steps.specs.Steps.{RoseBy, RoseByAtMost};

use counted_steps::Steps;
use std::marker::Brand;
use std::sync::ledger::{Blank, Ledger};

// The place of the byte, at a step for each byte that is looked at.
fn find<L: Ledger>(bytes: &[u8], byte: u8, steps: &mut Steps<L>) -> Option<usize>
    ensures { RoseByAtMost (length bytes.now) steps.old steps.new }
{
    for place in 0..bytes.len() {
        steps.tick();
        if bytes[place] == byte {
            return Some(place);
        }
    }
    None
}

// Three steps and as many as there are bytes.
fn three_and_each<L: Ledger>(bytes: &[u8], steps: &mut Steps<L>)
    ensures { RoseBy (3 + length bytes.now) steps.old steps.new }
{
    steps.tick();
    steps.tick_times(bytes.len());
    steps.tick_times(2);
}

// The place of the byte, with a counter of its own.
fn find_from<L: Ledger>(bytes: &[u8], byte: u8, blank: Blank) -> Option<usize>
    requires name { blank.name ≡ L.name }
    requires parts { blank.parts ≡ L.parts }
    requires some_part { 0 < blank.parts }
{
    find(bytes, byte, &mut Steps::<L>::start(blank))
}

// The place of the byte, for a caller that counts nothing.
fn find_uncounted(bytes: &[u8], byte: u8) -> Option<usize> {
    find_from::<Brand>(bytes, byte, Blank::new(1))
}

// The counter itself says what was counted.
fn counts<L: Ledger>(bytes: &[u8], blank: Blank) -> Steps<L>
    requires name { blank.name ≡ L.name }
    requires parts { blank.parts ≡ L.parts }
    requires some_part { 0 < blank.parts }
    ensures exact { result ≡ 6 + length bytes.now + length bytes.now }
{
    let mut steps = Steps::<L>::start(blank);
    three_and_each(bytes, &mut steps);
    three_and_each(bytes, &mut steps);
    steps
}

// Two searches count at most the steps of both.
fn find_both<L: Ledger>(bytes: &[u8], steps: &mut Steps<L>) -> (Option<usize>, Option<usize>)
    ensures { RoseByAtMost (length bytes.now + length bytes.now) steps.old steps.new }
{
    (find(bytes, 8, steps), find(bytes, 9, steps))
}

fn places_from<L: Ledger>(bytes: &[u8], blank: Blank) -> (Option<usize>, Option<usize>)
    requires name { blank.name ≡ L.name }
    requires parts { blank.parts ≡ L.parts }
    requires some_part { 0 < blank.parts }
{
    find_both(bytes, &mut counts::<L>(bytes, blank))
}

fn places(bytes: &[u8]) -> (Option<usize>, Option<usize>) {
    places_from::<Brand>(bytes, Blank::new(1))
}

#[test]
fn a_counted_search_finds(rt: HostRuntime) {
    let found = |byte| find_uncounted(&[7, 8, 9, 9], byte);
    assert!(rt; found(7) == Some(0) && found(9) == Some(2) && found(1) == None);
}

#[test]
fn two_searches_share_a_counter(rt: HostRuntime) {
    assert!(rt; places(&[7, 8, 9, 9]) == (Some(1), Some(2)));
}

#[test]
fn a_counter_takes_no_bytes(rt: HostRuntime) {
    assert_eq!(rt; size_of::<Steps<Brand>>(), 0);
}
