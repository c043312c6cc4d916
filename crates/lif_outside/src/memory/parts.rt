//! Parts of the calls on a store and a sink in memory, over plain lists and maps.
ghost use Rattle.std.specs.Prelude.{◌≡◌, ◌<◌, ◌≤◌, ◌-◌, ◌++◌, [], ℕ, min, length, take, drop, unwrap_or, OnOk, OnErr, IsErr};
ghost use Rattle.lif_outside.specs.Counts.{one_more};
ghost use Rattle.lif_outside.specs.Files.{SameFiles};
ghost use Rattle.lif_outside.specs.Memory.{keep_of, contents, SetsFile};
ghost use Rattle.lif_outside.specs.Picks.{place_of};

use super::{Call, Fail};
use crate::Failed;
use std::alloc::{AllocError, Global};
use std::collections::BTreeMap;

// Counts one more, and says how many there are then.
pub fn count_one(count: &mut u64) -> u64
    ensures value { result ≡ one_more count.old }
    ensures after { count.new ≡ one_more count.old }
    ensures later { count.old ≤ count.new }
{
    *count = count.saturating_add(1);
    *count
}

// Counts a call that fails.
pub fn failed(faults: &mut u64) -> Failed
    ensures after { faults.new ≡ one_more faults.old }
    ensures later { faults.old ≤ faults.new }
{
    count_one(faults);
    Failed
}

// How many bytes the `nth` call of a kind keeps, where it is listed to fail.
pub fn keep_of(fails: &[Fail], call: Call, nth: u64) -> Option<usize>
    ensures { result ≡ keep_of fails.now call nth }
{
    fails
        .iter()
        .find(|fail| fail.call == call && fail.nth == nth)
        .map(|fail| fail.keep)
}

// Copies bytes of a file, from a place on, to the front of a buffer, and says how many.
pub fn read_part(file: &[u8], at: usize, most: usize, into: &mut [u8]) -> usize
    ensures count { result ≡ min most (min (length into.old) (length file.now - at)) }
    ensures front { take result into.new ≡ take result (drop at file.now) }
    ensures rest { drop result into.new ≡ drop result into.old }
{
    let left = &file[at.min(file.len())..];
    let count = most.min(into.len()).min(left.len());
    into[..count].copy_from_slice(&left[..count]);
    count
}

// Makes an empty file, in place of one that is there.
pub fn empty_file(
    alloc: Global,
    files: &mut BTreeMap<String, Vec<u8>>,
    path: &str,
) -> Result<(), AllocError>
    ensures ok { OnOk result (SetsFile path.now [] (contents files.old) (contents files.new)) }
    ensures err { OnErr result (SameFiles (contents files.old) (contents files.new)) }
    ensures memory { IsErr result → contents files.old path.now ≡ None }
{
    if let Some(file) = files.get_mut(path) {
        file.clear();
        return Ok(());
    }
    files.insert(String::from_str(alloc, path)?, Vec::new(alloc))?;
    Ok(())
}

// Adds bytes at the end of a file, or the first `keep` alone, and none where memory runs out.
pub fn add_bytes(file: &mut Vec<u8>, bytes: &[u8], keep: Option<usize>) -> Result<(), AllocError>
    ensures ok { OnOk result (file.new.items
        ≡ file.old.items ++ take (unwrap_or keep (length bytes.now)) bytes.now) }
    ensures err { OnErr result (file.new.items ≡ file.old.items) }
    ensures prefix { (kept : ℕ) × (file.new.items ≡ file.old.items ++ take kept bytes.now) }
    ensures memory { OnErr result (0 < length bytes.now) }
{
    let kept = keep.unwrap_or(bytes.len()).min(bytes.len());
    file.extend_from_slice(&bytes[..kept])
}

// The place of the pair that a take gives, of so many that fly.
pub fn place_of(picks: &[u32], take: u64, flying: usize) -> usize
    requires { 0 < flying }
    ensures value { result ≡ place_of picks.now take flying }
    ensures within { result < flying }
{
    let pick = picks.get(take as usize).map_or(0, |pick| *pick as usize);
    pick.min(flying - 1)
}
