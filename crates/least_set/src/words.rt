//! Bits in words of 64.
ghost use Rattle.std.specs.Prelude.{◌≡◌, ◌≢◌, ◌<◌, ◌⊎◌, ◌*◌, ◌/◌, ◌%◌, ◌==◌, ◌≤◌, ℕ, length, slice_index_or};
ghost use Rattle.std.specs.Int.{bit_at};
ghost use Rattle.least_set.specs.Members.{bit_of, AreEighths, SameElsewhere, SetsBit, SetsBits, ClearsBit, IsFirstBit, Tells};

// Each eighth bit, from the first one on.
const EIGHTHS: u64 = 0x0101_0101_0101_0101;

// Sets the bit of a number, and says whether its word had none before.
pub fn set_bit(words: &mut [u64], number: usize) -> bool
    requires { number < 64 * length words.old }
    ensures bits { SetsBit number words.old words.new }
    ensures elsewhere { SameElsewhere (number / 64) words.old words.new }
    ensures value { result ≡ (slice_index_or words.old (number / 64) 0 == 0) }
{
    let word = &mut words[number / 64];
    let had_none = *word == 0;
    *word |= 1 << (number % 64);
    had_none
}

// Sets bits of a word, and says whether it had none before.
pub fn set_bits(words: &mut [u64], word: usize, bits: u64) -> bool
    requires { word < length words.old }
    ensures bits { SetsBits word bits words.old words.new }
    ensures value { result ≡ (slice_index_or words.old word 0 == 0) }
{
    let word = &mut words[word];
    let had_none = *word == 0;
    *word |= bits;
    had_none
}

// The bits from a place to another.
fn bits_between(from: usize, to: usize) -> u64
    requires order { from ≤ to }
    requires within_word { to < 64 }
    ensures inside { (i : ℕ) → from ≤ i → i ≤ to → bit_at result i ≡ 1 }
    ensures outside { (i : ℕ) → (i < from) ⊎ (to < i) → bit_at result i ≡ 0 }
{
    let below = (1 << from) - 1;
    ((1 << to) - 1) * 2 + 1 - below
}

// In a word the bits of the numbers from a first to a last one, of which each is eight more than the one before.
pub fn eighths_of(word: usize, first: usize, last: usize) -> u64
    requires first { first / 64 ≤ word }
    requires last { word ≤ last / 64 }
    requires order { first ≤ last }
    requires step { last % 8 ≡ first % 8 }
    ensures { AreEighths first last word result }
{
    let from = if word == first / 64 { first % 64 } else { 0 };
    let to = if word == last / 64 { last % 64 } else { 63 };
    (EIGHTHS << (first % 8)) & bits_between(from, to)
}

// Clears the bit of a number, and says whether its word has none then.
pub fn clear_bit(words: &mut [u64], number: usize) -> bool
    requires { number < 64 * length words.old }
    ensures bits { ClearsBit number words.old words.new }
    ensures elsewhere { SameElsewhere (number / 64) words.old words.new }
    ensures value { result ≡ (slice_index_or words.new (number / 64) 0 == 0) }
{
    let word = &mut words[number / 64];
    *word &= !(1 << (number % 64));
    *word == 0
}

// The place of the first bit of a word that has one.
pub fn first_of(bits: u64) -> usize
    requires { bits ≢ 0 }
    ensures set { bit_at bits result ≡ 1 }
    ensures before { (place : ℕ) → place < result → bit_at bits place ≡ 0 }
    ensures within_word { result < 64 }
{
    bits.trailing_zeros() as usize
}

// The number of the first bit of a word that has one, among words.
pub fn first_bit(words: &[u64], word: usize) -> usize
    requires within { word < length words.now }
    requires few_words { length words.now ≤ 4096 }
    requires some_bit { slice_index_or words.now word 0 ≢ 0 }
    ensures { IsFirstBit word result words.now }
{
    word * 64 + first_of(words[word])
}

// Clears the bit of a word that has none left, in the level above and where need be in the word over all.
pub fn leave_word(over_words: &mut [u64], over_all: u64, word: usize) -> u64
    requires within { word < 64 * length over_words.old }
    requires few_words { length over_words.old ≤ 64 }
    requires tells { Tells over_words.old (bit_at over_all) }
    requires set { bit_of over_words.old word ≡ 1 }
    ensures bits { ClearsBit word over_words.old over_words.new }
    ensures tells { Tells over_words.new (bit_at result) }
{
    if clear_bit(over_words, word) {
        over_all & !(1 << (word / 64))
    } else {
        over_all
    }
}
