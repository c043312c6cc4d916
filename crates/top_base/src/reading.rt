//! Whole files, read within a limit.
ghost use Rattle.std.specs.Prelude.{◌≡◌, ◌≤◌, ◌<◌, ◌+◌, [], length, true, IfOk, IfErr, IsErrOf, vec_len, vec_capacity};
ghost use Rattle.lif_outside.specs.Calls.{MakesCalls};
ghost use Rattle.lif_outside.specs.FileCalls.{ReadsWhole};
ghost use Rattle.lif_outside.specs.Limits.{last_place};
ghost use Rattle.top_base.specs.FileReading.{ReadsMore, ReadsNext, StopsReading};

use lif_outside::{Failed, Store};

/// How many bytes are read at a time.
const CHUNK: usize = 65536;

/// Why a whole file can't be had.
#[derive(Clone, Copy, Debug, PartialEq, Eq)]
pub enum FileRefusal {
    /// A read failed.
    Fault,
    /// The file has more bytes than the limit.
    TooLong,
    /// There was no memory.
    OutOfMemory,
}

/// Reads more of a file from a place on, at most to the byte past the limit, and answers how many bytes came. None come
/// where the file ended there.
pub fn read_next<S: Store>(
    store: &mut S,
    path: &str,
    limit: u64,
    at: u64,
    chunk: &mut [u8],
) -> Result<usize, Failed>
    requires limit { limit < last_place }
    requires within { at ≤ limit }
    requires chunk { 0 < length chunk.old }
    ensures reads { MakesCalls S.Store store.old store.new
        (ReadsNext path.now at chunk.new result) }
    ensures count { IfOk result (λ count. count ≤ length chunk.new) }
    ensures past { IfOk result (λ count. at + count ≤ limit + 1) }
{
    let room = (chunk.len() as u64).min(limit + 1 - at) as usize;
    store.read(path, at, &mut chunk[..room])
}

// Reads more of a file behind its front, and answers whether there was more. At most one byte past the limit
// is read.
fn read_more<S: Store>(
    store: &mut S,
    path: &str,
    limit: usize,
    chunk: &mut [u8],
    front: &mut Vec<u8>,
) -> Result<bool, FileRefusal>
    requires limit { limit < last_place }
    requires within { vec_len front.old ≤ limit }
    requires chunk { 0 < length chunk.old }
    ensures reads { MakesCalls S.Store store.old store.new
        (ReadsMore path.now limit front.old.items front.new.items result) }
    ensures within { vec_len front.new ≤ limit + 1 }
    ensures more { result ≡ Ok true → vec_len front.old < vec_len front.new }
    ensures memory { IsErrOf result FileRefusal.OutOfMemory → vec_capacity front.old < limit + 1 }
    ensures room { vec_capacity front.old ≤ vec_capacity front.new }
{
    match read_next(store, path, limit as u64, front.len() as u64, chunk) {
        Err(_) => Err(FileRefusal::Fault),
        Ok(0) => Ok(false),
        Ok(count) => match front.extend_from_slice(&chunk[..count]) {
            Ok(()) => Ok(true),
            Err(_) => Err(FileRefusal::OutOfMemory),
        },
    }
}

/// Reads the whole file of a path, of at most `limit` bytes, into an empty vector. Where the vector has room
/// for `limit` bytes and one more, it takes no memory.
pub fn read_whole<S: Store>(
    store: &mut S,
    path: &str,
    limit: usize,
    empty: Vec<u8>,
) -> Result<Vec<u8>, FileRefusal>
    requires empty { empty.items ≡ [] }
    requires limit { limit < last_place }
    ensures whole { IfOk result
        (λ bytes. MakesCalls S.Store store.old store.new (ReadsWhole path.now limit bytes.items)) }
    ensures refused { IfErr result
        (λ refusal. MakesCalls S.Store store.old store.new (StopsReading path.now limit refusal)) }
    ensures short { IfOk result (λ bytes. length bytes.items ≤ limit) }
    ensures memory { IsErrOf result FileRefusal.OutOfMemory → vec_capacity empty < limit + 1 }
{
    let mut bytes = empty;
    let mut chunk = [0; CHUNK];
    while bytes.len() <= limit {
        if !read_more(store, path, limit, &mut chunk, &mut bytes)? {
            return Ok(bytes);
        }
    }
    Err(FileRefusal::TooLong)
}
