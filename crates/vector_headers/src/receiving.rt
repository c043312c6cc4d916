//! A block received from the live links into a node, by their vectors alone.
ghost use Rattle.std.specs.Prelude.{◌≡◌, ◌≤◌, ◌<◌, ◌+◌, ◌*◌, ◌&&◌, ◌==◌, ◌∷◌, ◌≢◌, ℕ, List, [], All, IfOk, IsSome, Some, true, length};
ghost use Rattle.coded_traffic.specs.CodeBlocks.{IsBlockOf};
ghost use Rattle.generation_frame.specs.Blocks.{pieces, row_bytes};
ghost use Rattle.net_model.specs.Walks.{head_of};
ghost use Rattle.vector_headers.specs.Fabric.{Carried, is_live_at};
ghost use Rattle.vector_headers.specs.Receiving.{IsLiveLink, IsReceived, ins_where, rank_into, rank_over, rows_carried};
ghost use Rattle.vector_headers.specs.Rows.{IsAdmitted, IsWhole, rows_of_piece};

use crate::{Blind, Fabric, read_head};
use generation_frame::{PIECES, Packet};
use gf_tables::Field;
use std::alloc::{AllocError, Global};

/// The live links into a node, in rising order. Each link of the network is looked at once.
pub fn ins_where<F: Field>(
    alloc: Global,
    fabric: &Fabric<'_, F>,
    node: u32,
) -> Result<Vec<u32>, AllocError>
    ensures ins { IfOk result (λ ins. ins.items
        ≡ ins_where fabric.now.code fabric.now.failed node) }
    ensures live { IfOk result (λ ins. All (IsLiveLink fabric.now.code fabric.now.failed)
        ins.items) }
{
    let mut ins = Vec::new(alloc);
    for link in 0..fabric.code().net.links.len() as u32 {
        if leads_into(fabric, link, node) {
            ins.push(link)?;
        }
    }
    Ok(ins)
}

// Whether a link is live and leads into a node.
fn leads_into<F: Field>(fabric: &Fabric<'_, F>, link: u32, node: u32) -> bool
    requires { link < length fabric.now.code.net.links }
    ensures { result ≡ (is_live_at fabric.now link
        && (head_of fabric.now.code.net.links link == node)) }
{
    fabric.is_live(link) && fabric.code().net.head(link) == node
}

/// How many vectors of live links aren't sums of multiples of those of the links before them. `blind` is of the code's
/// field and rate, and forgets what it kept. It takes no memory.
pub fn rank_into<F: Field>(fabric: &Fabric<'_, F>, blind: &mut Blind<F>, ins: &[u32]) -> u32
    requires field { blind.old.field ≡ fabric.now.code.field }
    requires rate { blind.old.rate ≡ fabric.now.code.rate }
    requires ins { All (IsLiveLink fabric.now.code fabric.now.failed) ins.now }
    ensures over { result ≡ rank_over fabric.now.code fabric.now.failed ins.now }
    ensures into { (node : ℕ) → ins.now ≡ ins_where fabric.now.code fabric.now.failed node
        → result ≡ rank_into fabric.now.code fabric.now.failed node }
    ensures field { blind.new.field ≡ blind.old.field }
    ensures rate { blind.new.rate ≡ blind.old.rate }
{
    let nothing = Packet {
        link: 0,
        generation: 0,
        piece: 0,
        payload: [0; 128],
    };
    blind.clear();
    for link in ins {
        blind.accept(fabric.vector(*link), &nothing);
    }
    blind.rank(0)
}

/// Writes the block that was carried, of the headed frames that live links bring of it, where their rank is the rate.
///
/// `blind` is of the code's field and rate, and forgets what it kept. `frame` has 140 bytes and those of as many
/// elements as the rate, and `vector` as many elements as the rate. It takes no memory.
pub fn receive<F: Field>(
    fabric: &Fabric<'_, F>,
    blind: &mut Blind<F>,
    ins: &[u32],
    frame: &mut [u8],
    vector: &mut [F],
    into: &mut [u8],
)
    requires carried { IsSome fabric.now.carried }
    requires field { blind.old.field ≡ fabric.now.code.field }
    requires rate { blind.old.rate ≡ fabric.now.code.rate }
    requires ins { All (IsLiveLink fabric.now.code fabric.now.failed) ins.now }
    requires full { rank_over fabric.now.code fabric.now.failed ins.now ≡ fabric.now.code.rate }
    requires frame { length frame.old ≡ 140 + fabric.now.code.rate * F.BYTES }
    requires vector { length vector.old ≡ fabric.now.code.rate }
    requires room { length into.old ≡ fabric.now.code.rate * row_bytes }
    ensures block { (one : Carried) → fabric.now.carried ≡ Some one → into.new ≡ one.block }
    ensures field { blind.new.field ≡ blind.old.field }
    ensures rate { blind.new.rate ≡ blind.old.rate }
{
    blind.clear();
    take_links(fabric, blind, ins, frame, vector);
    blind.block(into);
}

// Takes in what live links of full rank bring, until as many rows are kept of each piece as the rate.
fn take_links<F: Field>(
    fabric: &Fabric<'_, F>,
    blind: &mut Blind<F>,
    ins: &[u32],
    frame: &mut [u8],
    vector: &mut [F],
)
    requires carried { IsSome fabric.now.carried }
    requires field { blind.old.field ≡ fabric.now.code.field }
    requires rate { blind.old.rate ≡ fabric.now.code.rate }
    requires none { (piece : ℕ) → rows_of_piece blind.old piece ≡ [] }
    requires ins { All (IsLiveLink fabric.now.code fabric.now.failed) ins.now }
    requires full { rank_over fabric.now.code fabric.now.failed ins.now ≡ fabric.now.code.rate }
    requires frame { length frame.old ≡ 140 + fabric.now.code.rate * F.BYTES }
    requires vector { length vector.old ≡ fabric.now.code.rate }
    ensures whole { IsWhole blind.new }
    ensures admitted { (one : Carried) → fabric.now.carried ≡ Some one
        → IsAdmitted blind.new (rows_carried fabric.now.code one) }
    ensures block { (one : Carried) → fabric.now.carried ≡ Some one
        → IsBlockOf fabric.now.code one.block }
    ensures field { blind.new.field ≡ blind.old.field }
    ensures rate { blind.new.rate ≡ blind.old.rate }
{
    for link in ins {
        take_link(fabric, blind, *link, frame, vector);
        if blind.is_whole() {
            return;
        }
    }
}

// Takes in what a live link brings of each piece.
fn take_link<F: Field>(
    fabric: &Fabric<'_, F>,
    blind: &mut Blind<F>,
    link: u32,
    frame: &mut [u8],
    vector: &mut [F],
)
    requires carried { IsSome fabric.now.carried }
    requires field { blind.old.field ≡ fabric.now.code.field }
    requires rate { blind.old.rate ≡ fabric.now.code.rate }
    requires link { IsLiveLink fabric.now.code fabric.now.failed link }
    requires frame { length frame.old ≡ 140 + fabric.now.code.rate * F.BYTES }
    requires vector { length vector.old ≡ fabric.now.code.rate }
    ensures received { (one : Carried) → fabric.now.carried ≡ Some one
        → (links : List ℕ) → (piece : ℕ) → piece < pieces
        → IsReceived fabric.now.code fabric.now.failed one links piece blind.old
        → IsReceived fabric.now.code fabric.now.failed one (link ∷ links) piece blind.new }
    ensures block { (one : Carried) → fabric.now.carried ≡ Some one
        → IsBlockOf fabric.now.code one.block }
    ensures field { blind.new.field ≡ blind.old.field }
    ensures rate { blind.new.rate ≡ blind.old.rate }
{
    for piece in 0..PIECES {
        take_piece(fabric, blind, link, piece as u8, frame, vector);
    }
}

// Takes in what a live link brings of a piece.
fn take_piece<F: Field>(
    fabric: &Fabric<'_, F>,
    blind: &mut Blind<F>,
    link: u32,
    piece: u8,
    frame: &mut [u8],
    vector: &mut [F],
)
    requires carried { IsSome fabric.now.carried }
    requires field { blind.old.field ≡ fabric.now.code.field }
    requires rate { blind.old.rate ≡ fabric.now.code.rate }
    requires link { IsLiveLink fabric.now.code fabric.now.failed link }
    requires piece { piece < pieces }
    requires frame { length frame.old ≡ 140 + fabric.now.code.rate * F.BYTES }
    requires vector { length vector.old ≡ fabric.now.code.rate }
    ensures received { (one : Carried) → fabric.now.carried ≡ Some one → (links : List ℕ)
        → IsReceived fabric.now.code fabric.now.failed one links piece blind.old
        → IsReceived fabric.now.code fabric.now.failed one (link ∷ links) piece blind.new }
    ensures others { (other : ℕ) → other ≢ piece
        → rows_of_piece blind.new other ≡ rows_of_piece blind.old other }
    ensures block { (one : Carried) → fabric.now.carried ≡ Some one
        → IsBlockOf fabric.now.code one.block }
    ensures field { blind.new.field ≡ blind.old.field }
    ensures rate { blind.new.rate ≡ blind.old.rate }
{
    fabric.frame(link, piece, frame);
    if let Ok(packet) = read_head(frame, vector) {
        blind.accept(vector, &packet);
    }
}
