//! A sink that knows no code: it keeps what came of each piece, and eliminates.
ghost use Rattle.std.specs.Prelude.{◌≡◌, ◌≢◌, ◌<◌, ◌≤◌, ◌+◌, ◌*◌, ◌↔◌, ℕ, List, [], ◌∷◌, length, map, suc, take, drop, slice_index_or, IfOk, IsTrue};
ghost use Rattle.std.specs.List.{concat};
ghost use Rattle.generation_frame.specs.Blocks.{piece_bytes, piece_of_row, pieces, row_bytes};
ghost use Rattle.gf_tables.specs.Kind.{IsOfKind};
ghost use Rattle.gf_tables.specs.Product.{bytes_of_element};
ghost use Rattle.gf_tables.specs.declared.kind.FieldKind.{FieldKind};
ghost use Rattle.linear_algebra.specs.Elements.{AreBytes, numbers};
ghost use Rattle.linear_algebra.specs.Rows.{AreRows};
ghost use Rattle.row_spans.specs.Spans.{HaveSameSums, IsHidden, IsSum};
ghost use Rattle.field_rows.specs.Widths.{width_in};
ghost use Rattle.vector_headers.specs.Held.{IsHeldSpan, IsTaken, coded_rows, emptied, gain_of, held_bytes, held_row, opened, vector_bytes};
ghost use Rattle.vector_headers.specs.Rows.{AdmitTheSame, IsAdmitted, IsWhole, row_of_bytes, rows_of_piece, vectors_of};

use crate::elements::{read_elements, write_elements};
use field_rows::RowTables;
use generation_frame::{PIECE, PIECES, Packet, ROW};
use gf_tables::{Field, FieldKind};
use row_spans::RowSpan;
use std::alloc::{AllocError, Global};
use std::marker::{Model, PhantomData};

/// What a row brought.
#[derive(Clone, Copy, Debug, PartialEq, Eq)]
pub enum Gain {
    /// Its vector isn't a sum of multiples of those kept, and it is kept too.
    Raised,
    /// Its vector is such a sum, and nothing changes.
    Same,
}

/// A sink that knows no code. Contracts see the rate, the field's kind, and of each of the 8 pieces the rows kept, each
/// a vector and the payload that came with it, as elements.
#[derive(Drop)]
pub struct Blind<F: Field> {
    field: FieldKind,
    rate: u32,
    tables: Box<RowTables>,
    spans: Vec<RowSpan<192>>,
    of_field: PhantomData<F>,
}

impl<F: Field> Model for Blind<F> {
    ghost use Rattle.vector_headers.specs.Rows.{Holding};

    ghost Value = { Holding };

    ghost use Rattle.vector_headers.specs.Held.{AreHeldSpans, holding_of};

    ghost view = { λ blind. holding_of blind.field blind.rate blind.spans.items };

    ghost invariant = { λ blind.
        AreHeldSpans F.BYTES blind.field blind.rate blind.spans.items };
}

impl<F: Field> Blind<F> {
    /// No rows, of a rate from 1 to 32. It takes all memory that the work needs.
    pub fn open(alloc: Global, rate: u32) -> Result<Blind<F>, AllocError>
        requires some_rate { 1 ≤ rate }
        requires low_rate { rate ≤ 32 }
        ensures field { IfOk result (λ blind. (kind : FieldKind)
            → IsOfKind kind F.SIZE F.BYTES F.MARK F.product → blind.field ≡ kind) }
        ensures rate { IfOk result (λ blind. blind.rate ≡ rate) }
        ensures none { IfOk result (λ blind. (piece : ℕ) → rows_of_piece blind piece ≡ []) }
    {
        let field = kind_of::<F>();
        let tables = Box::new(alloc, RowTables::new())?;
        Ok(Blind {
            field,
            rate,
            tables,
            spans: open_spans(alloc, field, rate)?,
            of_field: PhantomData,
        })
    }

    /// Forgets all rows.
    pub fn clear(&mut self)
        ensures field { self.new.field ≡ self.old.field }
        ensures rate { self.new.rate ≡ self.old.rate }
        ensures none { (piece : ℕ) → rows_of_piece self.new piece ≡ [] }
    {
        clear_spans(self.spans.as_mut_slice());
    }

    /// Takes in a row of the packet's piece: a vector, of as many elements as the rate, with the payload. It is kept
    /// exactly where the vector isn't a sum of multiples of those kept, and else nothing changes, whatever the payload.
    pub fn accept(&mut self, vector: &[F], packet: &Packet) -> Gain
        requires width { length vector.now ≡ self.old.rate }
        requires piece { packet.now.piece < pieces }
        ensures raised { result ≡ Gain.Raised ↔ ¬ IsSum self.old.field self.old.rate
            (vectors_of (rows_of_piece self.old packet.now.piece))
            (numbers F.number vector.now) }
        ensures spans { HaveSameSums self.old.field self.old.rate
            (vectors_of (rows_of_piece self.new packet.now.piece))
            (numbers F.number vector.now ∷ vectors_of (rows_of_piece self.old packet.now.piece)) }
        ensures same { result ≡ Gain.Same → self.new ≡ self.old }
        ensures others { (piece : ℕ) → piece ≢ packet.now.piece
            → rows_of_piece self.new piece ≡ rows_of_piece self.old piece }
        ensures count { result ≡ Gain.Raised → length (rows_of_piece self.new packet.now.piece)
            ≡ suc (length (rows_of_piece self.old packet.now.piece)) }
        ensures admits { result ≡ Gain.Raised → AdmitTheSame self.old.field self.old.rate
            (rows_of_piece self.new packet.now.piece)
            (row_of_bytes self.old.field (numbers F.number vector.now) packet.now.payload
            ∷ rows_of_piece self.old packet.now.piece) }
        ensures field { self.new.field ≡ self.old.field }
        ensures rate { self.new.rate ≡ self.old.rate }
    {
        let span = &mut self.spans[packet.piece as usize];
        take_in(&self.tables, span, vector, &packet.payload)
    }

    /// How many rows are kept of a piece, at most as many as the rate.
    pub fn rank(&self, piece: u8) -> u32
        requires { piece < pieces }
        ensures value { result ≡ length (rows_of_piece self.now piece) }
        ensures most { result ≤ self.now.rate }
    {
        self.spans[piece as usize].rank()
    }

    /// Whether as many rows are kept of each piece as the rate.
    pub fn is_whole(&self) -> bool
        ensures { IsTrue result ↔ IsWhole self.now }
    {
        for piece in 0..PIECES {
            if self.rank(piece as u8) != self.rate {
                return false;
            }
        }
        true
    }

    /// Writes the bytes of the block that the rows kept of all pieces admit, once as many are kept of each as the rate.
    pub fn block(&self, into: &mut [u8])
        requires whole { IsWhole self.now }
        requires room { length into.old ≡ self.now.rate * row_bytes }
        ensures { (block : List (List ℕ)) → IsAdmitted self.now block → into.new ≡ concat block }
    {
        for k in 0..self.rate {
            let at = k as usize * ROW;
            self.fill_row(k, &mut into[at..at + ROW]);
        }
    }

    // Writes row `k` of that block.
    fn fill_row(&self, k: u32, into: &mut [u8])
        requires row { k < self.now.rate }
        requires whole { IsWhole self.now }
        requires room { length into.old ≡ row_bytes }
        ensures { (block : List (List ℕ)) → IsAdmitted self.now block
            → into.new ≡ slice_index_or block k [] }
    {
        for piece in 0..PIECES {
            let at = piece * PIECE;
            self.fill_piece(k, piece, &mut into[at..at + PIECE]);
        }
    }

    // Writes a piece of row `k` of that block.
    fn fill_piece(&self, k: u32, piece: usize, into: &mut [u8])
        requires row { k < self.now.rate }
        requires piece { piece < pieces }
        requires whole { IsWhole self.now }
        requires room { length into.old ≡ piece_bytes }
        ensures { (block : List (List ℕ)) → IsAdmitted self.now block
            → into.new ≡ piece_of_row (slice_index_or block k []) piece }
    {
        put_payload(self.spans[piece].row(k), into);
    }

    /// Puts a vector there that isn't zero and gives zero with the vector of each row kept of a piece, while fewer are
    /// kept of it than the rate.
    pub fn hidden(&self, piece: u8, into: &mut [F])
        requires piece { piece < pieces }
        requires below { length (rows_of_piece self.now piece) < self.now.rate }
        requires room { length into.old ≡ self.now.rate }
        ensures { IsHidden self.now.field self.now.rate (vectors_of (rows_of_piece self.now piece))
            (numbers F.number into.new) }
    {
        let row = self.spans[piece as usize].hidden();
        read_elements(&row[..into.len() * F::BYTES], into);
    }
}

// What a row brings, by whether it raised the rank.
fn gain_of(raised: bool) -> Gain
    ensures { result ≡ gain_of raised }
{
    if raised { Gain::Raised } else { Gain::Same }
}

// The bytes of a row.
fn row_of<F: Field>(vector: &[F], payload: &[u8; 128]) -> [u8; 192]
    requires few { length vector.now ≤ 32 }
    ensures { result ≡ held_row F.BYTES (numbers F.number vector.now) payload.now }
{
    let mut row = [0; 192];
    let (head, behind) = row.split_at_mut(64);
    write_elements(vector, &mut head[..vector.len() * F::BYTES]);
    behind.copy_from_slice(payload);
    row
}

// Writes the payload of a row.
fn put_payload(row: &[u8; 192], into: &mut [u8])
    requires { length into.old ≡ piece_bytes }
    ensures long { length row.now ≡ held_bytes }
    ensures bytes { AreBytes row.now }
    ensures value { into.new ≡ drop vector_bytes row.now }
{
    into.copy_from_slice(&row[64..]);
}

// Takes a row into the span of its piece.
fn take_in<F: Field>(
    tables: &RowTables,
    span: &mut RowSpan<192>,
    vector: &[F],
    payload: &[u8; 128],
) -> Gain
    requires low_rate { span.old.rate ≤ 32 }
    requires wide { F.BYTES ≡ bytes_of_element span.old.field }
    requires width { length vector.now ≡ span.old.rate }
    requires rows { AreRows span.old.field (width_in span.old.field held_bytes) span.old.rows }
    ensures taken { IsTaken span.old.field span.old.rate
        (coded_rows span.old) (coded_rows span.new)
        (row_of_bytes span.old.field (numbers F.number vector.now) payload.now) result }
    ensures same { result ≡ Gain.Same → span.new ≡ span.old }
    ensures held { IsHeldSpan span.old.field span.old.rate span.new }
{
    gain_of(span.take_in(tables, &row_of(vector, payload)))
}

// The kind of a field.
fn kind_of<F: Field>() -> FieldKind
    ensures bytes { F.BYTES ≡ bytes_of_element result }
    ensures kind { (kind : FieldKind) → IsOfKind kind F.SIZE F.BYTES F.MARK F.product
        → result ≡ kind }
{
    if F::BYTES == 2 {
        FieldKind::Sixteen
    } else if F::MARK == 9 {
        FieldKind::Nine
    } else {
        FieldKind::Eight
    }
}

// A span for each piece.
fn open_spans(alloc: Global, field: FieldKind, rate: u32) -> Result<Vec<RowSpan<192>>, AllocError>
    requires { rate ≤ 32 }
    ensures { IfOk result (λ spans. spans.items ≡ opened field rate) }
{
    let mut spans = Vec::with_capacity(alloc, PIECES)?;
    for _piece in 0..PIECES {
        spans.push(RowSpan::open(alloc, field, rate)?)?;
    }
    Ok(spans)
}

// Forgets the rows of spans.
fn clear_spans(spans: &mut [RowSpan<192>])
    ensures { spans.new ≡ map emptied spans.old }
{
    for span in spans.iter_mut() {
        span.clear();
    }
}
