//! What a sink begins with.
ghost use Rattle.std.specs.Prelude.{◌≡◌, ◌<◌, IfOk, false, length, map, slice_index_or, All};
ghost use Rattle.generation_frame.specs.Blocks.{most_blocks};
ghost use Rattle.held_rows.specs.Held.{HoldsNone, row_count};

use generation_frame::MOST_BLOCKS;
use held_rows::HeldRows;
use node_program::LiveLinks;
use std::alloc::{AllocError, Global};

// Which of some links are live, by the table of all links.
pub(crate) fn live_among(
    alloc: Global,
    links: &[u32],
    live: &LiveLinks,
) -> Result<Vec<bool>, AllocError>
    requires { All (λ link. link < length live.now) links.now }
    ensures { IfOk result
        (λ among. among.items ≡ map (λ link. slice_index_or live.now link false) links.now) }
{
    let mut among = Vec::with_capacity(alloc, links.len())?;
    for link in links {
        among.push(*live.at(*link as usize))?;
    }
    Ok(among)
}

// So many rows for each generation of a window, of which no piece has come.
pub(crate) fn none_held(alloc: Global, rows: u32) -> Result<Vec<HeldRows>, AllocError>
    ensures count { IfOk result (λ came. length came.items ≡ most_blocks) }
    ensures rows { IfOk result (λ came. All (λ held. row_count held ≡ rows) came.items) }
{
    let mut came = Vec::with_capacity(alloc, MOST_BLOCKS)?;
    for _ in 0..MOST_BLOCKS {
        came.push(HeldRows::new(alloc, rows)?)?;
    }
    Ok(came)
}

// Forgets all pieces that came.
pub(crate) fn forget_all(came: &mut [HeldRows])
    ensures none { All HoldsNone came.new }
    ensures rows { map row_count came.new ≡ map row_count came.old }
{
    for held in came.iter_mut() {
        held.clear();
    }
}
