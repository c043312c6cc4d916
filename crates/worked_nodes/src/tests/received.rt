//! Blocks received from the live links into a node, by their vectors alone, whichever links fail.
ghost use Rattle.std.specs.Prelude.{◌≡◌, ◌<◌, All, IfOk, IsTrue, length};
ghost use Rattle.gf_tables.specs.Kind.{IsOfKind};
ghost use Rattle.vector_headers.specs.Receiving.{IsLiveLink};

use super::codes::{CUT_SLOW_BUTTERFLY, WIDE_LINK};
use generation_frame::ROW;
use gf_tables::{Field, FieldKind, Gf8, Gf9, Gf16};
use net_model::LinkList;
use node_program::Code;
use std::alloc::{AllocError, Global};
use std::test;
use test_support::codes::code_of;
use test_support::files::BUTTERFLY;
use vector_headers::{Blind, Fabric, HEAD, ins_where, rank_into, receive};

// Links that fail, a node, the live links into it, and the rank of their vectors.
type Row = (&'static [u32], u32, &'static [u32], u32);

const BUTTERFLY_ROWS: &[Row] = &[
    (&[], 0, &[], 0),
    (&[], 1, &[2, 7], 2),
    (&[], 5, &[4, 5], 2),
    (&[], 6, &[6], 1),
    // The link from `d` carries what comes from `a` alone.
    (&[5], 1, &[2, 7], 1),
    (&[5], 2, &[3, 8], 2),
    (&[0], 1, &[7], 1),
    (&[4, 5], 2, &[3], 1),
    (&[6], 2, &[3], 1),
];

// The links into `t1` carry the block and thrice the block, or twice alone.
const SLOW_ROWS: &[Row] = &[(&[], 1, &[2, 7], 1), (&[0], 1, &[7], 1)];

const WIDE_ROWS: &[Row] = &[(&[], 1, &[0], 1)];

// A block of so many bytes, each the low byte of its place times seven and its high byte.
fn block_of(alloc: Global, count: usize) -> Result<Vec<u8>, AllocError>
    requires { count < 65536 }
    ensures { IfOk result (λ block. length block.items ≡ count) }
{
    let mut block = Vec::with_capacity(alloc, count)?;
    for place in 0..count {
        block.push(((place * 7 + place / 256) % 256) as u8)?;
    }
    Ok(block)
}

// Whether live links have this rank, and where it is the rate, the block that is carried is received of what they bring.
fn brings<F: Field>(
    alloc: Global,
    code: &Code,
    fabric: &mut Fabric<'_, F>,
    ins: &[u32],
    rank: u32,
) -> Result<bool, AllocError>
    requires code { fabric.old.code ≡ code.now }
    requires field { IsOfKind code.now.field F.SIZE F.BYTES F.MARK F.product }
    requires ins { All (IsLiveLink fabric.old.code fabric.old.failed) ins.now }
{
    let rate = code.rate as usize;
    let mut blind = Blind::<F>::open(alloc, code.rate)?;
    let found = rank_into(fabric, &mut blind, ins);
    if found != rank || found != code.rate {
        return Ok(found == rank);
    }
    let block = block_of(alloc, rate * ROW)?;
    let mut frame = vec![in alloc; 0; HEAD + rate * F::BYTES]?;
    let mut vector = vec![in alloc; F::zero(); rate]?;
    let mut into = vec![in alloc; 0; rate * ROW]?;
    fabric.carry(7, &block);
    receive(fabric, &mut blind, ins, &mut frame, &mut vector, &mut into);
    Ok(into.as_slice() == block.as_slice())
}

// Whether a row holds.
fn holds<F: Field>(
    alloc: Global,
    code: &Code,
    failed: &LinkList,
    row: &Row,
) -> Result<bool, AllocError>
    requires field { IsOfKind code.now.field F.SIZE F.BYTES F.MARK F.product }
    requires failed { All (λ link. link < length code.now.net.links) failed.now }
{
    let mut fabric = Fabric::<F>::open(alloc, code, failed)?;
    let ins = ins_where(alloc, &fabric, row.1)?;
    if ins.as_slice() != row.2 {
        return Ok(false);
    }
    brings(alloc, code, &mut fabric, &ins, row.3)
}

// Whether links are those of a code.
fn are_links(code: &Code, links: &LinkList) -> bool
    ensures { IsTrue result → All (λ link. link < length code.now.net.links) links.now }
{
    let count = code.net.links.len();
    links.as_slice().iter().all(|link| (*link as usize) < count)
}

// The same over the code's field.
#[tactic(auto, unfolding(gf_tables::specs::Product::product))]
fn holds_over(alloc: Global, code: &Code, row: &Row) -> Result<bool, AllocError> {
    let failed = LinkList::of(row.0.to_vec(alloc)?);
    if !are_links(code, &failed) {
        return Ok(false);
    }
    match code.field {
        FieldKind::Eight => holds::<Gf8>(alloc, code, &failed, row),
        FieldKind::Nine => holds::<Gf9>(alloc, code, &failed, row),
        FieldKind::Sixteen => holds::<Gf16>(alloc, code, &failed, row),
    }
}

// The first row of the code of a file that doesn't hold.
fn wrong_row(alloc: Global, file: &[u8], rows: &[Row]) -> Option<usize> {
    let code = match code_of(alloc, file) {
        Ok(code) => code,
        Err(_) => return Some(rows.len()),
    };
    rows.iter()
        .position(|row| holds_over(alloc, &code, row) != Ok(true))
}

#[test]
fn blocks_are_received_by_their_vectors(rt: HostRuntime) {
    let alloc = rt.alloc();
    assert_eq!(rt; wrong_row(alloc, BUTTERFLY, BUTTERFLY_ROWS), None);
    assert_eq!(rt; wrong_row(alloc, CUT_SLOW_BUTTERFLY, SLOW_ROWS), None);
    assert_eq!(rt; wrong_row(alloc, WIDE_LINK, WIDE_ROWS), None);
}
