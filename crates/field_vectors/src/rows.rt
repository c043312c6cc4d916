//! Rows of elements: their products, sums and multiples.
ghost use Rattle.std.specs.Prelude.{◌≡◌, ◌<◌, length, All};
ghost use Rattle.counted_steps.specs.Steps.{RoseBy};
ghost use Rattle.field_vectors.specs.Elements.{dot_of, plus_multiple, multiple_of};

use counted_steps::Steps;
use gf_tables::Field;
use item_list::ItemList;
use std::sync::ledger::Ledger;

/// A row of elements, which a contract sees as their list.
pub type Row<F> = ItemList<F>;

/// The sum of the products of two rows, place by place. It counts a step for each place.
pub fn dot<F: Field, L: Ledger>(a: &[F], b: &[F], steps: &mut Steps<L>) -> F
    requires { length a.now ≡ length b.now }
    ensures element { F.is_element result }
    ensures value { result ≡ dot_of F.zero F.add F.mul a.now b.now }
    ensures ticks { RoseBy (length a.now) steps.old steps.new }
{
    let mut sum = F::zero();
    for place in (0..a.len()).rev() {
        sum = a[place].mul(b[place]).add(sum);
        steps.tick();
    }
    sum
}

/// Adds to each element of `into` the product of `by` and the element of `from` at its place. It
/// counts a step for each place.
pub fn add_scaled<F: Field, L: Ledger>(into: &mut [F], by: F, from: &[F], steps: &mut Steps<L>)
    requires { length into.old ≡ length from.now }
    ensures value { into.new ≡ plus_multiple F.add F.mul into.old by from.now }
    ensures ticks { RoseBy (length into.old) steps.old steps.new }
{
    for place in 0..into.len() {
        into[place] = into[place].add(by.mul(from[place]));
        steps.tick();
    }
}

/// Multiplies each element of `into` by `by`. It counts a step for each place.
pub fn scale<F: Field, L: Ledger>(into: &mut [F], by: F, steps: &mut Steps<L>)
    ensures value { into.new ≡ multiple_of F.mul by into.old }
    ensures ticks { RoseBy (length into.old) steps.old steps.new }
{
    for place in 0..into.len() {
        into[place] = by.mul(into[place]);
        steps.tick();
    }
}
