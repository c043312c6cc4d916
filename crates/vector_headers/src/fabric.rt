//! Fabrics: what the links of a code carry of one block where links fail, as headed frames.
ghost use Rattle.std.specs.Prelude.{◌≡◌, ◌<◌, ◌+◌, ◌*◌, All, IfOk, IsSome, None, Some, Ok, true, false, length};
ghost use Rattle.coded_traffic.specs.CodeBlocks.{IsBlockOf};
ghost use Rattle.generation_frame.specs.Blocks.{pieces, row_bytes};
ghost use Rattle.gf_tables.specs.Kind.{IsOfKind};
ghost use Rattle.linear_algebra.specs.Elements.{numbers};

use crate::fabric_parts::{copy_rows, fail_table, piece_at, vector_elements};
use crate::write_head;
use field_rows::RowTables;
use generation_frame::{Packet, ROW};
use gf_tables::Field;
use link_rows::LinkRows;
use net_model::LinkList;
use node_program::{Code, LiveLinks, live_where};
use std::alloc::{AllocError, Global};
use std::marker::Model;

/// What the links of a code carry of one block where links fail, as headed frames. Contracts see the code, the links
/// that fail, and what was carried last, if anything was: the number of the generation with the block.
#[derive(Drop)]
pub struct Fabric<'c, F: Field> {
    code: &'c Code,
    failed: Vec<u32>,
    fails: Vec<bool>,
    live: LiveLinks,
    vectors: Vec<F>,
    tables: RowTables,
    generation: Option<u32>,
    block: Vec<[u8; 1024]>,
    rows: LinkRows<1024>,
}

impl<'c, F: Field> Model for Fabric<'c, F> {
    ghost use Rattle.vector_headers.specs.Fabric.{Carrying};

    ghost Value = { Carrying };

    ghost use Rattle.vector_headers.specs.Fabric.{IsFabric, carried_in};

    ghost view = { λ fabric. record {
      code = fabric.code.now;
      failed = fabric.failed.items;
      carried = carried_in fabric.generation fabric.block.items;
    } };

    ghost invariant = { λ fabric. IsFabric F.number (record {
      code = fabric.code.now;
      failed = fabric.failed.items;
      carried = carried_in fabric.generation fabric.block.items;
    }) fabric.fails.items fabric.live fabric.vectors.items fabric.block.items fabric.rows };
}

impl<'c, F: Field> Fabric<'c, F> {
    ghost use Rattle.vector_headers.specs.Fabric.{Carried, frame_at, is_live_at, packet_at, vector_at};
    ghost use Rattle.vector_headers.specs.Heads.{head_read, vector_in};

    /// A fabric of a code whose listed links fail, by which nothing was carried. `F` is the code's field. It takes all
    /// memory that the work needs.
    pub fn open(
        alloc: Global,
        code: &'c Code,
        failed: &LinkList,
    ) -> Result<Fabric<'c, F>, AllocError>
        requires field { IsOfKind code.now.field F.SIZE F.BYTES F.MARK F.product }
        requires failed { All (λ link. link < length code.now.net.links) failed.now }
        ensures code { IfOk result (λ fabric. fabric.code ≡ code.now) }
        ensures failed { IfOk result (λ fabric. fabric.failed ≡ failed.now) }
        ensures none { IfOk result (λ fabric. fabric.carried ≡ None) }
    {
        let coding = code.coding();
        let tables = RowTables::new();
        let fails = fail_table(alloc, code.net.links.len(), failed.as_slice())?;
        let vectors = vector_elements(alloc, &tables, coding, &fails)?;
        let live = live_where(alloc, coding, &fails)?;
        let block = vec![in alloc; [0; ROW]; code.rate as usize]?;
        let rows = LinkRows::of(alloc, &tables, coding, &fails, &block)?;
        Ok(Fabric {
            code,
            failed: failed.as_slice().to_vec(alloc)?,
            fails,
            live,
            vectors,
            tables,
            generation: None,
            block,
            rows,
        })
    }

    /// Carries the block of a generation over all links, in place of what was carried before. It takes no memory.
    pub fn carry(&mut self, generation: u32, block: &[u8])
        requires { length block.now ≡ self.old.code.rate * row_bytes }
        ensures code { self.new.code ≡ self.old.code }
        ensures failed { self.new.failed ≡ self.old.failed }
        ensures carried { self.new.carried
            ≡ Some (record { generation = generation; block = block.now }) }
    {
        copy_rows(block, &mut self.block);
        self.rows
            .fill(&self.tables, self.code.coding(), &self.fails, &self.block);
        self.generation = Some(generation);
    }

    /// Writes the headed frame of a piece of what a link carries, where the link is live; else nothing is written. The
    /// piece is below 8, and the frame has 140 bytes and those of as many elements as the rate.
    pub fn frame(&self, link: u32, piece: u8, into: &mut [u8]) -> bool
        requires carried { IsSome self.now.carried }
        requires link { link < length self.now.code.net.links }
        requires piece { piece < pieces }
        requires room { length into.old ≡ 140 + self.now.code.rate * F.BYTES }
        ensures live { result ≡ is_live_at self.now link }
        ensures frame { result ≡ true
            → (one : Carried) → self.now.carried ≡ Some one
            → into.new ≡ frame_at F.BYTES self.now one link piece }
        ensures same { result ≡ false → into.new ≡ into.old }
        ensures back { result ≡ true
            → (one : Carried) → self.now.carried ≡ Some one
            → head_read F.BYTES self.now.code.rate into.new
            ≡ Ok (packet_at self.now one link piece) }
        ensures vector_back { result ≡ true
            → vector_in F.BYTES self.now.code.rate into.new ≡ vector_at self.now link }
        ensures block { (one : Carried) → self.now.carried ≡ Some one
            → IsBlockOf self.now.code one.block }
    {
        if !*self.live.at(link as usize) {
            return false;
        }
        let packet = Packet {
            link,
            generation: self.generation.unwrap(),
            piece,
            payload: piece_at(self.rows.row(link), piece),
        };
        write_head(self.vector(link), &packet, into);
        true
    }

    /// The code.
    pub fn code(&self) -> &'c Code
        ensures { result.now ≡ self.now.code }
    {
        self.code
    }

    /// Whether a link is live where the listed links fail.
    pub fn is_live(&self, link: u32) -> bool
        requires { link < length self.now.code.net.links }
        ensures { result ≡ is_live_at self.now link }
    {
        *self.live.at(link as usize)
    }

    /// The global coding vector of a link where the listed links fail.
    pub fn vector(&self, link: u32) -> &[F]
        requires { link < length self.now.code.net.links }
        ensures count { length result.now ≡ self.now.code.rate }
        ensures value { numbers F.number result.now ≡ vector_at self.now link }
    {
        let rate = self.code.rate as usize;
        let start = link as usize * rate;
        &self.vectors[start..start + rate]
    }
}
