//! The table of products by which the coefficients of a link are chosen.
ghost use Rattle.std.specs.Prelude.{◌≡◌, ◌≢◌, ◌*◌, ◌<◌, ◌≤◌, ◌^◌, ℕ, All, IfOk, OnErr, OnOk, false, length, map, slice_index, slice_index_or, true};
ghost use Rattle.counted_steps.specs.Steps.{RoseBy, RoseByAtMost};
ghost use Rattle.field_vectors.specs.Grid.{row_of};
ghost use Rattle.gf_tables.specs.Kind.{IsOfKind};
ghost use Rattle.gf_tables.specs.declared.kind.FieldKind.{FieldKind};
ghost use Rattle.node_program.specs.Carried.{numbers_at};
ghost use Rattle.node_program.specs.Value.{leaves_source};
ghost use Rattle.lif_compiler.specs.Bases.{HasWidth};
ghost use Rattle.lif_compiler.specs.PartialCodes.{IsTableFor};
ghost use Rattle.lif_compiler.specs.Tables.{AreAmong, AreNamed, AreOfShape, CanFeed, product_by, product_steps};

use crate::Hop;
use crate::partial_code::PartialCode;
use counted_steps::Steps;
use field_vectors::{Matrix, dot};
use gf_tables::Field;
use net_model::Net;
use std::alloc::{AllocError, Global};
use std::sync::ledger::Ledger;

// The product of the vector of a source with the inverse vector of a path. It counts a step for each place, and none
// where the link leaves the source.
fn product<F: Field, L: Ledger>(
    leaves: bool,
    from: u32,
    vectors: &Matrix<F>,
    inverses: &Matrix<F>,
    path: u32,
    steps: &mut Steps<L>,
) -> F
    requires row { leaves ≡ true → from < vectors.now.columns }
    requires link { leaves ≡ false → from < length vectors.now.rows }
    requires path { path < length inverses.now.rows }
    requires width { inverses.now.columns ≡ vectors.now.columns }
    ensures element { F.is_element result }
    ensures value { (kind : FieldKind) → IsOfKind kind F.SIZE F.BYTES F.MARK F.product →
        F.number result ≡ product_by kind F.number leaves vectors.now inverses.now path from }
    ensures ticks { RoseBy (product_steps leaves inverses.now.columns) steps.old steps.new }
{
    if leaves {
        inverses.at(path, from)
    } else {
        dot(vectors.row(from), inverses.row(path), steps)
    }
}

// Makes a row of the table the products of the sources' vectors with the inverse vector of a path.
fn fill_row<F: Field, L: Ledger>(
    table: &mut Matrix<F>,
    row: u32,
    leaves: bool,
    sources: &[u32],
    vectors: &Matrix<F>,
    inverses: &Matrix<F>,
    path: u32,
    steps: &mut Steps<L>,
)
    requires row { row < length table.old.rows }
    requires columns { table.old.columns ≡ length sources.now }
    requires named { AreNamed leaves vectors.now.columns (length vectors.now.rows) sources.now }
    requires path { path < length inverses.now.rows }
    requires width { inverses.now.columns ≡ vectors.now.columns }
    ensures columns { table.new.columns ≡ table.old.columns }
    ensures height { length table.new.rows ≡ length table.old.rows }
    ensures products { (kind : FieldKind) → IsOfKind kind F.SIZE F.BYTES F.MARK F.product
        → numbers_at F.number table.new row
        ≡ map (product_by kind F.number leaves vectors.now inverses.now path) sources.now }
    ensures others { (other : ℕ) → other ≢ row → row_of table.new other ≡ row_of table.old other }
    ensures ticks { RoseBy
        (length sources.now * product_steps leaves inverses.now.columns) steps.old steps.new }
{
    for column in 0..table.columns() {
        let from = sources[column as usize];
        let entry = product(leaves, from, vectors, inverses, path, steps);
        table.set(row, column, entry);
    }
}

impl<F: Field> PartialCode<F> {
    /// The table of the products of the sources' vectors with the inverse vectors of the hops' paths: a row for each
    /// hop over the link, a column for each source. It counts a step for each place of each product's vectors, and none
    /// where the link leaves the source or there is too little memory.
    pub fn table_of<L: Ledger>(
        &self,
        alloc: Global,
        net: &Net,
        link: u32,
        sources: &[u32],
        hops: &[Hop],
        steps: &mut Steps<L>,
    ) -> Result<Matrix<F>, AllocError>
        requires link { link < length net.now.links }
        requires some_pattern { 0 < length self.now.vectors.items }
        requires vectors { AreOfShape (length net.now.links) self.now.rate self.now.vectors.items }
        requires bases { All (HasWidth self.now.rate) self.now.bases.items }
        requires hops { AreAmong (length self.now.bases.items) self.now.rate hops.now }
        requires sources { CanFeed net.now self.now.rate link sources.now }
        requires few_sources { length sources.now < 2 ^ 32 }
        requires few_hops { length hops.now < 2 ^ 32 }
        ensures table { IfOk result (IsTableFor net.now link sources.now hops.now self.now) }
        ensures ticks { let once = product_steps (leaves_source net.now link) self.now.rate
            in OnOk result (RoseBy (length hops.now * (length sources.now * once))
            steps.old steps.new) }
        ensures refused_ticks { OnErr result (RoseBy 0 steps.old steps.new) }
        ensures few_ticks { RoseByAtMost
            (length hops.now * (length sources.now * self.now.rate)) steps.old steps.new }
    {
        let leaves = net.leaves_source(link);
        let mut table = Matrix::zeros(alloc, hops.len() as u32, sources.len() as u32)?;
        for (row, hop) in hops.iter().enumerate() {
            let demand = hop.demand as usize;
            let vectors = &self.vectors[demand % self.vectors.len()];
            let inverses = &self.bases[demand].inverses;
            fill_row(
                &mut table, row as u32, leaves, sources, vectors, inverses, hop.path, steps,
            );
        }
        Ok(table)
    }
}
