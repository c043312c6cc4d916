//! The sinks that have the rank of a code, as they decode a block and fill their files.
ghost use Rattle.std.specs.Prelude.{◌≡◌, ◌≤◌, ◌<◌, ◌*◌, ◌+◌, ◌∷◌, [], ℕ, List, All, IfOk, IsSome, OnErr, OnOk, Some, length, map, slice_index_or, string_bytes, vec_len};
ghost use Rattle.generation_frame.specs.Blocks.{block_of, row_bytes};
ghost use Rattle.gf_tables.specs.Kind.{IsOfKind};
ghost use Rattle.lif_outside.specs.Calls.{MakesCalls};
ghost use Rattle.lif_outside.specs.FileCalls.{StopsWithin, appends_of};
ghost use Rattle.lif_outside.specs.Sequences.{Are};
ghost use Rattle.top_blind.specs.Blind.{piece_turn};
ghost use Rattle.top_blind.specs.Ranked.{HasRank};
ghost use Rattle.vector_headers.specs.Fabric.{Carried};

use generation_frame::{ROW, counted};
use gf_tables::Field;
use lif_outside::{Failed, Store};
use std::alloc::{AllocError, Global};
use vector_headers::{Blind, Fabric, HEAD, receive};

/// The sinks that have the rank of a code where links fail, at work: the path of each one's file and its live links, and room for a
/// headed frame, its vector and a block.
#[derive(Drop)]
pub struct Delivering<'c, F: Field> {
    pub fabric: Fabric<'c, F>,
    pub paths: Vec<String>,
    blind: Blind<F>,
    ins: Vec<Vec<u32>>,
    frame: Vec<u8>,
    vector: Vec<F>,
    block: Vec<u8>,
    ghost field: { blind.field ≡ fabric.code.field },
    ghost rate: { blind.rate ≡ fabric.code.rate },
    ghost each: { vec_len ins ≡ vec_len paths },
    ghost ranked: { All (λ links. HasRank fabric.code fabric.failed links.items) ins.items },
    ghost frame_room: { vec_len frame ≡ 140 + fabric.code.rate * F.BYTES },
    ghost vector_room: { vec_len vector ≡ fabric.code.rate },
    ghost block_room: { vec_len block ≡ fabric.code.rate * row_bytes },
}

// Adds bytes to a file, where there are any.
fn append_some<S: Store>(store: &mut S, path: &str, bytes: &[u8]) -> Result<(), Failed>
    requires { S.made store.old path.now }
    ensures made { (other : List ℕ) → S.made store.old other → S.made store.new other }
    ensures appended { OnOk result (MakesCalls S.Store store.old store.new
        (Are (appends_of (piece_turn (path.now ∷ []) bytes.now ∷ [])))) }
    ensures failed { OnErr result (MakesCalls S.Store store.old store.new
        (StopsWithin (appends_of (piece_turn (path.now ∷ []) bytes.now ∷ [])))) }
{
    if bytes.is_empty() {
        return Ok(());
    }
    store.append(path, bytes)
}

impl<'c, F: Field> Delivering<'c, F> {
    /// Sinks before any block came. It takes all memory that the work needs.
    pub fn open(
        alloc: Global,
        fabric: Fabric<'c, F>,
        blind: Blind<F>,
        paths: Vec<String>,
        ins: Vec<Vec<u32>>,
    ) -> Result<Delivering<'c, F>, AllocError>
        requires field { blind.field ≡ fabric.code.field }
        requires rate { blind.rate ≡ fabric.code.rate }
        requires each { vec_len ins ≡ vec_len paths }
        requires ranked { All (λ links. HasRank fabric.code fabric.failed links.items) ins.items }
        ensures code { IfOk result (λ delivering. delivering.fabric.code ≡ fabric.entry.code) }
        ensures paths { IfOk result (λ delivering. delivering.paths ≡ paths) }
    {
        let rate = fabric.code().rate as usize;
        Ok(Delivering {
            fabric,
            paths,
            blind,
            ins,
            frame: vec![in alloc; 0; HEAD + rate * F::BYTES]?,
            vector: vec![in alloc; F::zero(); rate]?,
            block: vec![in alloc; 0; rate * ROW]?,
        })
    }

    // Decodes the block that was carried at the sink of a place.
    fn decode(&mut self, place: usize)
        requires place { place < vec_len self.old.paths }
        requires carried { IsSome self.old.fabric.carried }
        ensures fabric { self.new.fabric ≡ self.old.fabric }
        ensures paths { self.new.paths ≡ self.old.paths }
        ensures block { (one : Carried) → self.old.fabric.carried ≡ Some one
            → self.new.block.items ≡ one.block }
    {
        receive(
            &self.fabric,
            &mut self.blind,
            &self.ins[place],
            &mut self.frame,
            &mut self.vector,
            &mut self.block,
        );
    }

    /// Decodes the block that was carried at the sink of a place, and adds what it counts to the sink's file.
    pub fn deliver<S: Store>(&mut self, store: &mut S, place: usize) -> Result<(), Failed>
        requires place { place < vec_len self.old.paths }
        requires carried { IsSome self.old.fabric.carried }
        requires made { S.made store.old (slice_index_or (map string_bytes self.old.paths.items) place []) }
        ensures fabric { self.new.fabric ≡ self.old.fabric }
        ensures paths { self.new.paths ≡ self.old.paths }
        ensures made { (other : List ℕ) → S.made store.old other → S.made store.new other }
        ensures appended { (one : Carried) (piece : List ℕ) → self.old.fabric.carried ≡ Some one
            → one.block ≡ block_of self.old.fabric.code.rate piece
            → length one.block ≡ self.old.fabric.code.rate * row_bytes
            → OnOk result (MakesCalls S.Store store.old store.new (Are (appends_of (piece_turn
            (slice_index_or (map string_bytes self.old.paths.items) place [] ∷ []) piece ∷ [])))) }
        ensures failed { (one : Carried) (piece : List ℕ) → self.old.fabric.carried ≡ Some one
            → one.block ≡ block_of self.old.fabric.code.rate piece
            → length one.block ≡ self.old.fabric.code.rate * row_bytes
            → OnErr result (MakesCalls S.Store store.old store.new (StopsWithin (appends_of (piece_turn
            (slice_index_or (map string_bytes self.old.paths.items) place [] ∷ []) piece ∷ [])))) }
    {
        self.decode(place);
        append_some(store, self.paths[place].as_str(), counted(&self.block))
    }
}
