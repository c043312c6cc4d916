//! The words of a set and the two levels over them.
ghost use Rattle.std.specs.Prelude.{◌≡◌, ◌≢◌, ◌<◌, ◌≤◌, ◌*◌, ◌/◌, ◌%◌, ℕ, length};
ghost use Rattle.least_set.specs.Members.{ClearsBit, HasLeast, IsLeast, IsOver, SetsBit, SetsBits, SetsEighths};

use crate::MOST;
use crate::words::{clear_bit, eighths_of, first_bit, first_of, leave_word, set_bit, set_bits};

// Adds a number, and gives the word over all then.
pub fn add(words: &mut [u64], over_words: &mut [u64], over_all: u64, number: usize) -> u64
    requires over { IsOver words.old over_words.old over_all }
    requires within { number < 64 * length words.old }
    ensures bits { SetsBit number words.old words.new }
    ensures over { IsOver words.new over_words.new result }
    ensures long { length over_words.new ≡ length over_words.old }
{
    if set_bit(words, number) {
        set_bit(over_words, number / 64);
        over_all | 1 << (number / 64 / 64)
    } else {
        over_all
    }
}

// Adds the numbers from a first to a last one, of which each is eight more than the one before, and gives the word over
// all then.
pub fn add_eighths(
    words: &mut [u64],
    over_words: &mut [u64],
    over_all: u64,
    first: usize,
    last: usize,
) -> u64
    requires over { IsOver words.old over_words.old over_all }
    requires order { first ≤ last }
    requires step { last % 8 ≡ first % 8 }
    requires within { last < 64 * length words.old }
    ensures bits { SetsEighths first last words.old words.new }
    ensures over { IsOver words.new over_words.new result }
    ensures long { length over_words.new ≡ length over_words.old }
{
    let mut over_all = over_all;
    for word in first / 64..last / 64 + 1 {
        over_all = add_bits(
            words,
            over_words,
            over_all,
            word,
            eighths_of(word, first, last),
        );
    }
    over_all
}

// Adds numbers of one word, and gives the word over all then.
fn add_bits(words: &mut [u64], over_words: &mut [u64], over_all: u64, word: usize, bits: u64) -> u64
    requires over { IsOver words.old over_words.old over_all }
    requires within { word < length words.old }
    requires some_bits { bits ≢ 0 }
    ensures bits { SetsBits word bits words.old words.new }
    ensures over { IsOver words.new over_words.new result }
    ensures long { length over_words.new ≡ length over_words.old }
{
    if set_bits(words, word, bits) {
        set_bit(over_words, word);
        over_all | 1 << (word / 64)
    } else {
        over_all
    }
}

// Takes the least number away, and gives the one after it, or where there is none, `MOST`.
pub fn take_away(
    words: &mut [u64],
    over_words: &mut [u64],
    over_all: &mut u64,
    number: usize,
) -> u32
    requires over { IsOver words.old over_words.old over_all.old }
    requires least { IsLeast number (record { words = words.old }) }
    ensures bits { ClearsBit number words.old words.new }
    ensures over { IsOver words.new over_words.new over_all.new }
    ensures long { length over_words.new ≡ length over_words.old }
    ensures least { HasLeast result words.new }
{
    let word = number / 64;
    if clear_bit(words, number) {
        *over_all = leave_word(over_words, *over_all, word);
        least_of(words, over_words, *over_all)
    } else {
        first_bit(words, word) as u32
    }
}

// The least number, or where there is none, `MOST`.
fn least_of(words: &[u64], over_words: &[u64], over_all: u64) -> u32
    requires { IsOver words.now over_words.now over_all }
    ensures { HasLeast result words.now }
{
    if over_all == 0 {
        return MOST;
    }
    let top = first_of(over_all);
    let word = first_bit(over_words, top);
    first_bit(words, word) as u32
}
