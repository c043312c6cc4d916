//! Bundles: the names that they make, and the links that words of a pattern name.
ghost use Rattle.std.specs.Prelude.{◌≡◌, ◌<◌, ◌≤◌, ◌+◌, ◌++◌, ◌∷◌, [], ℕ, false, All, IfOk, IfSome, OnOk, is_some, length, map, nat_eq, not};
ghost use Rattle.std.specs.List.{list_all, list_any, range_with_len};
ghost use Rattle.name_index.specs.Seen.{has};
ghost use Rattle.net_model.specs.Limits.{most_links};
ghost use Rattle.net_model.specs.Lists.{are_distinct};
ghost use Rattle.net_model.specs.Name.{IsName, is_name};
ghost use Rattle.net_reader.specs.Bundles.{IsGathered, in_rising_order, made_name, names_none, numbers_named, numbers_of_words};
ghost use Rattle.net_reader.specs.State.{AreBundles, bundle_seen};
ghost use Rattle.net_reader.specs.Statements.{links_named, names_made};
ghost use Rattle.net_reader.specs.Words.{texts_of};

use itoa::Buffer;
use name_index::{Names, OwnedNames};
use net_model::LONGEST_NAME;
use std::alloc::{AllocError, Global};

/// The links of a bundle, which follow each other.
#[derive(Clone, Copy)]
pub(crate) struct BundleLinks<'a> {
    /// The bundle's name.
    pub name: &'a [u8],
    /// The number of its first link.
    pub first: u32,
    /// How many links it has.
    pub count: u32,
}

/// The bundles so far, by their names.
#[derive(Drop)]
pub(crate) struct Bundles<'a> {
    pub names: Names<'a>,
    pub links: Vec<BundleLinks<'a>>,
}

impl<'a> Bundles<'a> {
    /// No bundles.
    pub fn new(alloc: Global) -> Bundles<'a>
        ensures names { result.names ≡ [] }
        ensures links { result.links.items ≡ [] }
    {
        Bundles {
            names: Names::new(alloc),
            links: Vec::new(alloc),
        }
    }

    /// Adds a bundle of a new name.
    pub fn add(&mut self, name: &'a [u8], first: u32, count: u32) -> Result<(), AllocError>
        requires { has self.old.names name.now ≡ false }
        ensures names { OnOk result (self.new.names ≡ self.old.names ++ name.now ∷ []) }
        ensures links { OnOk result (map bundle_seen self.new.links.items
            ≡ map bundle_seen self.old.links.items ++ record { name = name.now; first = first; count = count } ∷ []) }
    {
        self.names.add(name)?;
        self.links.push(BundleLinks { name, first, count })?;
        Ok(())
    }
}

/// Whether all names that a bundle makes are names: that of its last link is the longest.
pub(crate) fn makes_names(name: &[u8], bundle: Option<u32>) -> bool
    requires name { IsName name.now }
    requires count { IfSome bundle (λ count. (1 ≤ count) × (count ≤ most_links)) }
    ensures { result ≡ list_all is_name (names_made name.now bundle) }
{
    let Some(count) = bundle else {
        return true;
    };
    let mut digits = Buffer::new();
    name.len() + 1 + digits.format(count).len() <= LONGEST_NAME
}

// The name of a link of a bundle.
fn made_name(alloc: Global, name: &[u8], number: u32) -> Result<Vec<u8>, AllocError>
    ensures { IfOk result (λ made. made.items ≡ made_name name.now number) }
{
    let mut digits = Buffer::new();
    let digits = digits.format(number).as_bytes();
    let mut made = Vec::with_capacity(alloc, LONGEST_NAME)?;
    made.extend_from_slice(name)?;
    made.push(b'.')?;
    made.extend_from_slice(digits)?;
    Ok(made)
}

/// The names of the links of a link line: its own, or those that its bundle makes.
pub(crate) fn links_named(
    alloc: Global,
    name: &[u8],
    bundle: Option<u32>,
) -> Result<Vec<Vec<u8>>, AllocError>
    requires { IfSome bundle (λ count. count ≤ most_links) }
    ensures { IfOk result (λ names. map (λ name. name.items) names.items ≡ links_named name.now bundle) }
{
    let mut names = Vec::new(alloc);
    match bundle {
        None => names.push(Vec::from_slice(alloc, name)?)?,
        Some(count) => {
            for number in 1..=count {
                names.push(made_name(alloc, name, number)?)?;
            }
        }
    }
    Ok(names)
}

// The first of the links that a word names, and how many they are: 0 where it names none.
fn named(links: &OwnedNames, bundles: &Bundles, word: &[u8]) -> (u32, u32)
    requires few { length links.now ≤ most_links }
    requires bundles { AreBundles links.now bundles.now }
    ensures numbers { range_with_len result.0 result.1
        ≡ numbers_named links.now (map bundle_seen bundles.now.links.items) word.now }
    ensures within { result.0 + result.1 ≤ length links.now }
{
    if let Some(number) = links.number_of(word) {
        return (number as u32, 1);
    }
    let Some(place) = bundles.names.number_of(word) else {
        return (0, 0);
    };
    let bundle = bundles.links[place];
    (bundle.first, bundle.count)
}

// Adds so many numbers from the first on.
fn push_range(numbers: &mut Vec<u32>, first: u32, count: u32) -> Result<(), AllocError>
    requires { first + count ≤ most_links }
    ensures { OnOk result (numbers.new.items ≡ numbers.old.items ++ range_with_len first count) }
{
    for number in first..first + count {
        numbers.push(number)?;
    }
    Ok(())
}

// Whether each of the words names a link. For each byte the last word that ended with it is kept, and isn't looked up again
// where it comes next.
fn are_known(links: &OwnedNames, bundles: &Bundles, words: &[&[u8]]) -> bool
    requires few { length links.now ≤ most_links }
    requires bundles { AreBundles links.now bundles.now }
    ensures { result ≡ not (list_any (names_none links.now (map bundle_seen bundles.now.links.items)) (texts_of words.now)) }
{
    let Some(first) = words.first() else {
        return true;
    };
    if named(links, bundles, first).1 == 0 {
        return false;
    }
    let mut known = [*first; 256];
    for word in words {
        let end = usize::from(word.last().copied().unwrap_or(0));
        if known[end] != *word {
            if named(links, bundles, word).1 == 0 {
                return false;
            }
            known[end] = *word;
        }
    }
    true
}

/// The numbers of the links that words name, in the order of the words, or none where a word names no link. Where more come
/// than there are links, one of them stands twice, and those of later words may be left out.
pub(crate) fn numbers_of_words(
    alloc: Global,
    links: &OwnedNames,
    bundles: &Bundles,
    words: &[&[u8]],
) -> Result<Option<Vec<u32>>, AllocError>
    requires few { length links.now ≤ most_links }
    requires bundles { AreBundles links.now bundles.now }
    ensures unknown { IfOk result (λ found. is_some found
        ≡ not (list_any (names_none links.now (map bundle_seen bundles.now.links.items)) (texts_of words.now))) }
    ensures numbers { IfOk result (λ found. IfSome found (λ numbers. IsGathered
        (numbers_of_words links.now (map bundle_seen bundles.now.links.items) (texts_of words.now))
        numbers.items)) }
    ensures within { IfOk result (λ found. IfSome found (λ numbers.
        All (λ number. number < length links.now) numbers.items)) }
{
    let mut numbers = Vec::new(alloc);
    for (place, word) in words.iter().enumerate() {
        let (first, count) = named(links, bundles, word);
        if count == 0 {
            return Ok(None);
        }
        push_range(&mut numbers, first, count)?;
        if numbers.len() > links.len() {
            // One of them stands twice, whatever later words name.
            if !are_known(links, bundles, &words[place + 1..]) {
                return Ok(None);
            }
            return Ok(Some(numbers));
        }
    }
    Ok(Some(numbers))
}

/// Numbers in rising order, where none stands twice.
pub(crate) fn in_rising_order(mut numbers: Vec<u32>) -> Option<Vec<u32>>
    ensures distinct { is_some result ≡ are_distinct nat_eq numbers.items }
    ensures rising { IfSome result (λ rising. (count : ℕ) → All (λ number. number < count) numbers.items
        → rising.items ≡ in_rising_order count numbers.items) }
{
    numbers.sort_unstable();
    for pair in numbers.windows(2) {
        if pair[0] == pair[1] {
            return None;
        }
    }
    Some(numbers)
}
