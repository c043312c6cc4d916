//! Sets of numbers as rising lists, stepped in lexicographic order.
ghost use Rattle.std.specs.Prelude.{◌≡◌, ◌+◌, ◌-◌, ◌<◌, ◌≤◌, ◌∷◌, [], ℕ, if◌then◌else◌, slice_index, length};
ghost use Rattle.net_maker.specs.Fits.{most_middle};
ghost use Rattle.net_maker.specs.Subsets.{HasRoom, subsets_from};

/// Steps to the next set of as many numbers up to `most`, if there is one.
pub(crate) fn advance(subset: &mut [u32], most: u32) -> bool
    requires few_members { length subset.old ≤ most_middle }
    requires most { most ≤ most_middle }
    requires room { HasRoom most subset.old }
    ensures room { HasRoom most subset.new }
    ensures next { subsets_from (most + 1) subset.old
        ≡ subset.old ∷ (if result then subsets_from (most + 1) subset.new else []) }
{
    let place = first_full(subset, most);
    if place == 0 {
        return false;
    }
    let next = subset[place - 1] + 1;
    restart(subset, place - 1, next);
    true
}

// The place from which on each member is as great as it can be.
fn first_full(subset: &[u32], most: u32) -> usize
    requires few_members { length subset.now ≤ most_middle }
    requires most { most ≤ most_middle }
    requires room { HasRoom most subset.now }
    ensures within { result ≤ length subset.now }
    ensures full { (i : ℕ) → result ≤ i → i < length subset.now
        → slice_index subset.now i + length subset.now ≡ most + 1 + i }
    ensures free { 0 < result
        → slice_index subset.now (result - 1) + length subset.now < most + result }
{
    let mut place = subset.len();
    while place > 0 && subset[place - 1] as usize + subset.len() == most as usize + place {
        place -= 1;
    }
    place
}

// Makes the members from a place on follow one another, from `first` on.
fn restart(subset: &mut [u32], place: usize, first: u32)
    requires few_members { length subset.old ≤ most_middle }
    requires place { place < length subset.old }
    requires first { first ≤ most_middle }
    ensures before { (i : ℕ) → i < place → slice_index subset.new i ≡ slice_index subset.old i }
    ensures after { (i : ℕ) → place ≤ i → i < length subset.old
        → slice_index subset.new i + place ≡ first + i }
{
    for at in place..subset.len() {
        subset[at] = first + (at - place) as u32;
    }
}
