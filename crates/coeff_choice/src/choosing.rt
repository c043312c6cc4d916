//! The choice of coefficients.
ghost use Rattle.std.specs.Prelude.{◌≡◌, ◌≢◌, ◌+◌, ◌*◌, ◌^◌, ◌<◌, ◌≤◌, ℕ, true, false, length, slice_index_or, slice_set, replicate, IfOk};
ghost use Rattle.counted_steps.specs.Steps.{RoseBy, RoseByAtMost};
ghost use Rattle.field_vectors.specs.Elements.{dot_of};
ghost use Rattle.field_vectors.specs.Grid.{row_of, entry_of, IsMatrix};
ghost use Rattle.coeff_choice.specs.Choice.{HasNonzeroAt, IsChoice, choice_steps};
ghost use Rattle.coeff_choice.specs.Choosing.{IsChoosing, IsMarked, scaled_plus_unit, forbidden_at};

use counted_steps::Steps;
use field_vectors::{Matrix, dot, scale};
use gf_tables::Field;
use std::alloc::{AllocError, Global};
use std::sync::ledger::Ledger;

// The coefficients so far, their products with the rows so far, and marks of numbers. There is room for the
// products of all rows, and for a mark of as many numbers.
#[derive(Drop)]
struct Choosing<F: Field> {
    coefficients: Vec<F>,
    products: Vec<F>,
    marks: Vec<bool>,
}

// So many times the same value.
fn copies<T: Copy + Drop>(alloc: Global, count: u32, value: T) -> Result<Vec<T>, AllocError>
    ensures { IfOk result (λ v. v.items ≡ replicate count value) }
{
    let mut items = Vec::new(alloc);
    items.resize(count as usize, value)?;
    Ok(items)
}

// Multiplies each coefficient, and then adds one to that at a place.
fn scale_plus_unit<F: Field, L: Ledger>(
    coefficients: &mut [F],
    by: F,
    place: u32,
    steps: &mut Steps<L>,
)
    requires { place < length coefficients.old }
    ensures value { coefficients.new
        ≡ scaled_plus_unit F.zero F.one F.add F.mul by place coefficients.old }
    ensures ticks { RoseBy (length coefficients.old) steps.old steps.new }
{
    scale(coefficients, by, steps);
    let at = place as usize;
    coefficients[at] = coefficients[at].add(F::one());
}

// Makes the first products those with the changed coefficients.
fn update_products<F: Field, L: Ledger>(
    products: &mut [F],
    count: u32,
    table: &Matrix<F>,
    by: F,
    place: u32,
    steps: &mut Steps<L>,
)
    requires kept { count ≤ length products.old }
    requires rows { count ≤ length table.now.rows }
    requires column { place < table.now.columns }
    ensures value { (row : ℕ) → row < count → slice_index_or products.new row F.zero ≡
        F.add (F.mul by (slice_index_or products.old row F.zero))
        (entry_of F.zero table.now row place) }
    ensures ticks { RoseBy count steps.old steps.new }
{
    for row in 0..count {
        let at = row as usize;
        products[at] = by.mul(products[at]).add(table.at(row, place));
        steps.tick();
    }
}

// Marks the numbers of the multipliers with which a product would become zero.
fn mark_forbidden<F: Field, L: Ledger>(
    products: &[F],
    table: &Matrix<F>,
    place: u32,
    marks: &mut [bool],
    steps: &mut Steps<L>,
)
    requires rows { length products.now ≤ length table.now.rows }
    requires column { place < table.now.columns }
    requires few_products { length products.now < 2 ^ 32 }
    requires nonzero { (row : ℕ) → row < length products.now
        → slice_index_or products.now row F.zero ≢ F.zero }
    ensures marked { IsMarked F.zero F.mul F.inv F.number table.now place products.now
        (length products.now) marks.new }
    ensures ticks { RoseBy (2 * length products.now) steps.old steps.new }
{
    marks.fill(false);
    for row in 0..products.len() {
        let inverse = products[row].inv();
        steps.tick();
        let forbidden = table.at(row as u32, place).mul(inverse);
        steps.tick();
        let number = forbidden.number() as usize;
        if number < marks.len() {
            marks[number] = true;
        }
    }
}

// The first number that is not marked.
fn first_unmarked(marks: &[bool]) -> usize
    requires { (n : ℕ) × (n < length marks.now) × (slice_index_or marks.now n true ≡ false) }
    ensures below { result < length marks.now }
    ensures unmarked { slice_index_or marks.now result true ≡ false }
{
    for (number, mark) in marks.iter().enumerate() {
        if !*mark {
            return number;
        }
    }
    unreachable!()
}

// The least number of a multiplier with which no product becomes zero.
fn allowed_number<F: Field, L: Ledger>(
    products: &[F],
    table: &Matrix<F>,
    place: u32,
    marks: &mut [bool],
    steps: &mut Steps<L>,
) -> u32
    requires rows { length products.now < length table.now.rows }
    requires column { place < table.now.columns }
    requires marks { length products.now < length marks.old }
    requires few_products { length products.now < 2 ^ 32 }
    requires nonzero { (row : ℕ) → row < length products.now
        → slice_index_or products.now row F.zero ≢ F.zero }
    ensures below { result ≤ length products.now }
    ensures allowed { (row : ℕ) → row < length products.now →
        F.number (forbidden_at F.zero F.mul F.inv table.now place products.now row) ≢ result }
    ensures ticks { RoseBy (2 * length products.now) steps.old steps.new }
{
    let used = &mut marks[..products.len() + 1];
    mark_forbidden(products, table, place, used, steps);
    first_unmarked(used) as u32
}

impl<F: Field> Choosing<F> {
    // Coefficients that are all zero, with room for so many rows.
    fn start(alloc: Global, rows: u32, columns: u32) -> Result<Self, AllocError>
        ensures { IfOk result (λ it. (it.coefficients.items ≡ replicate columns F.zero)
            × (it.products.items ≡ replicate rows F.zero)
            × (it.marks.items ≡ replicate rows false)) }
    {
        Ok(Choosing {
            coefficients: copies(alloc, columns, F::zero())?,
            products: copies(alloc, rows, F::zero())?,
            marks: copies(alloc, rows, false)?,
        })
    }

    // Changes the coefficients, so that the product with the next row is not zero either. At the place the row is
    // not zero.
    fn change<L: Ledger>(&mut self, table: &Matrix<F>, row: u32, place: u32, steps: &mut Steps<L>)
        requires row { row < length table.now.rows }
        requires column { place < table.now.columns }
        requires few_rows { length table.now.rows ≤ F.SIZE }
        requires nonzero { entry_of F.zero table.now row place ≢ F.zero }
        requires before { IsChoosing F.is_element F.zero F.add F.mul table.now row
            self.old.coefficients.items self.old.products.items self.old.marks.items }
        requires is_zero { dot_of F.zero F.add F.mul self.old.coefficients.items
            (row_of table.now row) ≡ F.zero }
        ensures after { IsChoosing F.is_element F.zero F.add F.mul table.now (row + 1)
            self.new.coefficients.items self.new.products.items self.new.marks.items }
        ensures ticks { RoseBy (table.now.columns + 3 * row) steps.old steps.new }
    {
        let at = row as usize;
        let products = self.products.as_mut_slice();
        let number = allowed_number(
            &products[..at],
            table,
            place,
            self.marks.as_mut_slice(),
            steps,
        );
        let by = F::of_number(number);
        scale_plus_unit(self.coefficients.as_mut_slice(), by, place, steps);
        update_products(products, row, table, by, place, steps);
        products[at] = table.at(row, place);
    }

    // Makes the product with the next row one that is not zero.
    fn include_row<L: Ledger>(
        &mut self,
        table: &Matrix<F>,
        row: u32,
        place: u32,
        steps: &mut Steps<L>,
    )
        requires row { row < length table.now.rows }
        requires column { place < table.now.columns }
        requires few_rows { length table.now.rows ≤ F.SIZE }
        requires nonzero { entry_of F.zero table.now row place ≢ F.zero }
        requires before { IsChoosing F.is_element F.zero F.add F.mul table.now row
            self.old.coefficients.items self.old.products.items self.old.marks.items }
        ensures after { IsChoosing F.is_element F.zero F.add F.mul table.now (row + 1)
            self.new.coefficients.items self.new.products.items self.new.marks.items }
        ensures ticks { RoseByAtMost (2 * table.now.columns + 3 * row) steps.old steps.new }
    {
        let product = dot(self.coefficients.as_slice(), table.row(row), steps);
        if product == F::zero() {
            self.change(table, row, place, steps);
        } else {
            self.products[row as usize] = product;
        }
    }
}

/// One element for each column of the table, whose product with every row is not zero. `preds` has for each row
/// a place at which the row is not zero, and there are at most as many rows as the field has elements. Each
/// product and each inverse counts a step (Jaggi et al. 2005, for as many functions as elements).
pub fn choose<F: Field, L: Ledger>(
    alloc: Global,
    table: &Matrix<F>,
    preds: &[u32],
    steps: &mut Steps<L>,
) -> Result<Vec<F>, AllocError>
    requires nonzero { HasNonzeroAt F.zero table.now preds.now }
    requires few_rows { length table.now.rows ≤ F.SIZE }
    ensures kept { IsMatrix F.is_element table.now }
    ensures choice { IfOk result
        (λ choice. IsChoice F.is_element F.zero F.add F.mul table.now choice.items) }
    ensures ticks { RoseByAtMost
        (choice_steps (length table.now.rows) table.now.columns) steps.old steps.new }
{
    let mut choosing = Choosing::start(alloc, table.rows(), table.columns())?;
    for row in 0..table.rows() {
        choosing.include_row(table, row, preds[row as usize], steps);
    }
    Ok(choosing.coefficients)
}
