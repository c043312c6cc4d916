//! The headed frames of the butterfly, where links fail that no pattern of it names.
ghost use Rattle.std.specs.Prelude.{◌≡◌, ◌<◌, All, length, true};
ghost use Rattle.gf_tables.specs.Kind.{IsOfKind};

use generation_frame::{PIECE, ROW};
use gf_tables::{Field, FieldKind, Gf8};
use net_model::LinkList;
use node_program::Code;
use std::alloc::{AllocError, Global};
use test_support::codes::code_of;
use test_support::files::BUTTERFLY;
use vector_headers::Fabric;

// The bytes of a headed frame with two elements.
const BYTES: usize = 142;

// What a link carries of a piece of generation 7: what stands before the payload, and each byte of this; or nothing.
type Told = Option<(&'static [u8; 14], u8)>;

type Row = (&'static [u32], u32, u8, Told);

// The links that fail, a link and a piece, and what is told of them. The block has in its first row 0x30 and the number of
// the piece, and in its second 0x80 and that.
const ROWS: &[Row] = &[
    (
        &[],
        0,
        5,
        Some((b"LF\x02\x05\0\0\0\0\0\0\0\x07\x01\0", 0x35)),
    ),
    (
        &[],
        3,
        0,
        Some((b"LF\x02\0\0\0\0\x03\0\0\0\x07\0\x01", 0x80)),
    ),
    (
        &[],
        6,
        1,
        Some((b"LF\x02\x01\0\0\0\x06\0\0\0\x07\x01\x01", 0xb0)),
    ),
    (
        &[],
        8,
        7,
        Some((b"LF\x02\x07\0\0\0\x08\0\0\0\x07\x01\x01", 0xb0)),
    ),
    // Without the link from the source to `a` there is nothing on those from `a`.
    (&[0], 0, 5, None),
    (&[0], 2, 5, None),
    (&[0], 4, 5, None),
    (
        &[0],
        6,
        5,
        Some((b"LF\x02\x05\0\0\0\x06\0\0\0\x07\0\x01", 0x85)),
    ),
    (
        &[0],
        7,
        3,
        Some((b"LF\x02\x03\0\0\0\x07\0\0\0\x07\0\x01", 0x83)),
    ),
    // Without that from `b` to `c` the middle carries the first row alone.
    (
        &[5],
        3,
        2,
        Some((b"LF\x02\x02\0\0\0\x03\0\0\0\x07\0\x01", 0x82)),
    ),
    (&[5], 5, 2, None),
    (
        &[5],
        8,
        2,
        Some((b"LF\x02\x02\0\0\0\x08\0\0\0\x07\x01\0", 0x32)),
    ),
    (&[4, 5], 6, 0, None),
    (&[4, 5], 8, 0, None),
];

// The block.
fn block() -> [u8; 2048] {
    let mut block = [0; 2048];
    for place in 0..2048 {
        let piece = (place % ROW / PIECE) as u8;
        block[place] = if place < ROW {
            0x30 + piece
        } else {
            0x80 + piece
        };
    }
    block
}

// What is told, as bytes; where nothing is, those that stood there before.
fn frame_of(told: Told) -> [u8; 142] {
    let mut frame = [0xee; BYTES];
    if let Some((front, byte)) = told {
        frame = [byte; BYTES];
        frame[..14].copy_from_slice(front);
    }
    frame
}

// Whether a fabric of a code gives what is told, where links fail.
fn gives<F: Field>(alloc: Global, code: &Code, row: &Row) -> Result<bool, AllocError>
    requires field { IsOfKind code.now.field F.SIZE F.BYTES F.MARK F.product }
    requires octets { F.BYTES ≡ 1 }
    requires rate { code.now.rate ≡ 2 }
    requires failed { All (λ link. link < length code.now.net.links) row.now.0.now }
    requires link { row.now.1 < length code.now.net.links }
    requires piece { row.now.2 < 8 }
{
    let failed = LinkList::of(row.0.to_vec(alloc)?);
    let mut fabric = Fabric::<F>::open(alloc, code, &failed)?;
    fabric.carry(7, &block());
    let mut frame = [0xee; BYTES];
    let is_live = fabric.frame(row.1, row.2, &mut frame);
    Ok(is_live == row.3.is_some() && frame == frame_of(row.3))
}

// Whether all are links of a code.
fn are_links(code: &Code, links: &[u32]) -> bool
    ensures { result ≡ true
        → All (λ link. link < length code.now.net.links) links.now }
{
    links
        .iter()
        .all(|link| (*link as usize) < code.net.links.len())
}

// The same, where it can be looked at.
fn is_right(alloc: Global, code: &Code, row: &Row) -> bool {
    if code.rate != 2 || row.1 as usize >= code.net.links.len() || row.2 > 7 {
        return false;
    }
    if !are_links(code, row.0) {
        return false;
    }
    match code.field {
        FieldKind::Eight => gives::<Gf8>(alloc, code, row) == Ok(true),
        _ => false,
    }
}

// The first row that isn't so, or the number of rows where there is no code.
fn wrong_row(alloc: Global) -> Option<usize> {
    match code_of(alloc, BUTTERFLY) {
        Ok(code) => ROWS.iter().position(|row| !is_right(alloc, &code, row)),
        Err(_) => Some(ROWS.len()),
    }
}

#[test]
fn frames_are_headed_where_links_fail(rt: HostRuntime) {
    assert_eq!(rt; wrong_row(rt.alloc()), None);
}
