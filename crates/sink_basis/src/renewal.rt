//! The parts of a basis at its start, and the inverse vectors after a vector was replaced.
ghost use Rattle.std.specs.Prelude.{◌≡◌, ◌≢◌, ◌+◌, ◌*◌, ◌<◌, length, None, replicate, IfOk};
ghost use Rattle.counted_steps.specs.Steps.{RoseBy, RoseByAtMost};
ghost use Rattle.field_vectors.specs.Elements.{dot_of, identity_of};
ghost use Rattle.field_vectors.specs.Grid.{IsMatrix, row_of};
ghost use Rattle.sink_basis.specs.Renewal.{IsCleared, IsClearedBelow, IsRenewed, clear_steps, others_changed, renewal_steps};

use crate::basis::Frontier;
use counted_steps::Steps;
use field_vectors::{Matrix, dot};
use gf_tables::Field;
use item_list::ItemList;
use std::alloc::{AllocError, Global};
use std::sync::ledger::Ledger;

/// So many paths with no link.
pub fn no_links(alloc: Global, h: u32) -> Result<Frontier, AllocError>
    ensures { IfOk result (λ frontier. frontier ≡ replicate h None) }
{
    let links = vec![in alloc; None; h as usize]?;
    Ok(ItemList::of(links))
}

/// The identity matrix.
pub fn identity<F: Field>(alloc: Global, size: u32) -> Result<Matrix<F>, AllocError>
    ensures kept { IfOk result (IsMatrix F.is_element) }
    ensures columns { IfOk result (λ m. m.columns ≡ size) }
    ensures rows { IfOk result (λ m. m.rows ≡ identity_of F.zero F.one size) }
{
    let mut matrix = Matrix::zeros(alloc, size, size)?;
    for i in 0..size {
        matrix.set(i, i, F::one());
    }
    Ok(matrix)
}

// Adds to a row its product with the vector times the path's row. It counts a step for each entry, and another one
// where the product isn't zero.
fn clear_row<F: Field, L: Ledger>(
    inverses: &mut Matrix<F>,
    k: u32,
    path: u32,
    vector: &[F],
    steps: &mut Steps<L>,
)
    requires row { k < length inverses.old.rows }
    requires path { path < length inverses.old.rows }
    requires apart { k ≢ path }
    requires width { length vector.now ≡ inverses.old.columns }
    ensures cleared { IsCleared F.zero F.add F.mul path vector.now k inverses.old inverses.new }
    ensures kept { IsMatrix F.is_element inverses.new }
    ensures ticks { RoseBy
        (clear_steps F.number F.zero F.add F.mul path vector.now inverses.old k)
        steps.old steps.new }
{
    let product = dot(vector, inverses.row(k), steps);
    if product != F::zero() {
        inverses.add_row(k, product, path, steps);
    }
}

// Adds to each other row its product with the vector times the path's row. It counts a step for each entry of the
// other rows, and another one for each of those whose product isn't zero.
fn clear_others<F: Field, L: Ledger>(
    inverses: &mut Matrix<F>,
    path: u32,
    vector: &[F],
    steps: &mut Steps<L>,
)
    requires path { path < length inverses.old.rows }
    requires width { length vector.now ≡ inverses.old.columns }
    ensures cleared { IsClearedBelow F.zero F.add F.mul path vector.now inverses.old inverses.new
        (length inverses.old.rows) }
    ensures kept { IsMatrix F.is_element inverses.new }
    ensures ticks { (others : _) → others + 1 ≡ length inverses.old.rows → RoseBy
        ((others + others_changed F.number F.zero F.add F.mul path vector.now inverses.old)
        * inverses.old.columns) steps.old steps.new }
{
    for k in 0..inverses.rows() {
        if k != path {
            clear_row(inverses, k, path, vector, steps);
        }
    }
}

/// Makes the inverse vectors those of a basis whose vector of the path is replaced. It counts a step for each product
/// of elements and one for the inverse: at most three steps for each entry.
pub fn renew_inverses<F: Field, L: Ledger>(
    inverses: &mut Matrix<F>,
    path: u32,
    vector: &[F],
    steps: &mut Steps<L>,
)
    requires path { path < length inverses.old.rows }
    requires width { length vector.now ≡ inverses.old.columns }
    requires nonzero { dot_of F.zero F.add F.mul vector.now (row_of inverses.old path) ≢ F.zero }
    ensures renewed { IsRenewed F.is_element F.zero F.add F.mul F.inv path vector.now
        inverses.old inverses.new }
    ensures ticks { RoseBy
        (renewal_steps F.number F.zero F.add F.mul path vector.now inverses.old)
        steps.old steps.new }
    ensures few_ticks { RoseByAtMost
        (3 * (length inverses.old.rows * inverses.old.columns)) steps.old steps.new }
{
    let product = dot(vector, inverses.row(path), steps);
    inverses.scale_row(path, product.inv(), steps);
    steps.tick();
    clear_others(inverses, path, vector, steps);
}
