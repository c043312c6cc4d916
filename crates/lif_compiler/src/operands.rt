//! The operands of a link, from what its hops come from and from the coefficients that were chosen.
ghost use Rattle.std.specs.Prelude.{◌≡◌, ◌<◌, IfOk, IsTrue, length, map, slice_index, true};
ghost use Rattle.net_model.specs.Lists.{is_among, is_rising};
ghost use Rattle.lif_compiler.specs.Operands.{ArePlaces, AreSources, befores, operands_of};

use crate::Hop;
use gf_tables::Field;
use node_program::{Operand, OperandList};
use std::alloc::{AllocError, Global};

/// What comes before a link on the paths of its hops, each once and in rising order.
pub(crate) fn sources_of(alloc: Global, hops: &[Hop]) -> Result<Vec<u32>, AllocError>
    ensures { IfOk result (λ sources. AreSources (befores hops.now) sources.items) }
{
    let mut sources: Vec<u32> = hops.iter().map(|hop| hop.before).collect(alloc)?;
    sources.sort_unstable();
    sources.dedup();
    Ok(sources)
}

/// For each hop the place among the sources of what comes before it.
pub(crate) fn places_of(
    alloc: Global,
    hops: &[Hop],
    sources: &[u32],
) -> Result<Vec<u32>, AllocError>
    requires { AreSources (befores hops.now) sources.now }
    ensures { IfOk result (λ places. ArePlaces (befores hops.now) sources.now places.items) }
{
    let mut places = Vec::with_capacity(alloc, hops.len())?;
    for hop in hops {
        places.push(place_of(sources, hop.before))?;
    }
    Ok(places)
}

// The place of a number among rising numbers that have it.
fn place_of(numbers: &[u32], number: u32) -> u32
    requires rising { IsTrue (is_rising numbers.now) }
    requires there { is_among numbers.now number ≡ true }
    ensures within { result < length numbers.now }
    ensures here { slice_index numbers.now result ≡ number }
{
    match numbers.binary_search(&number) {
        Ok(place) => place as u32,
        Err(_) => unreachable!(),
    }
}

/// The sources with their coefficients, but for those whose coefficient is zero.
pub(crate) fn operands_with<F: Field>(
    alloc: Global,
    sources: &[u32],
    coefficients: &[F],
) -> Result<OperandList, AllocError>
    requires { length coefficients.now ≡ length sources.now }
    ensures { IfOk result (λ operands.
        operands ≡ operands_of sources.now (map F.number coefficients.now)) }
{
    let mut operands = Vec::with_capacity(alloc, sources.len())?;
    for (place, from) in sources.iter().enumerate() {
        let times = coefficients[place].number();
        if times != 0 {
            operands.push(Operand { from: *from, times })?;
        }
    }
    Ok(OperandList::of(operands))
}
