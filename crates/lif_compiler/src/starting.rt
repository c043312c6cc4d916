//! A code in the making, before any link is visited.
ghost use Rattle.std.specs.Prelude.{◌≡◌, ◌≤◌, [], All, IfOk, IsTrue, length};
ghost use Rattle.gf_tables.specs.Kind.{IsOfKind};
ghost use Rattle.failure_patterns.specs.UsedField.{pair_demands};
ghost use Rattle.net_model.specs.Demands.{demand_count};
ghost use Rattle.net_model.specs.Limits.{highest_rate};
ghost use Rattle.node_program.specs.Code.{are_in_order, choice_of};
ghost use Rattle.lif_compiler.specs.Bases.{HasMatrices, HasNoLinks, HasUnitVectors};
ghost use Rattle.lif_compiler.specs.Compiled.{marked_kind};
ghost use Rattle.lif_compiler.specs.Tables.{grids_of};
ghost use Rattle.lif_compiler.specs.Visits.{IsBegun};

use crate::partial_code::PartialCode;
use failure_patterns::demands;
use field_vectors::Matrix;
use gf_tables::Field;
use net_model::Net;
use sink_basis::Basis;
use std::alloc::{AllocError, Global};

// For each pattern a matrix of zeros, with a row for each link.
fn zero_vectors<F: Field>(
    alloc: Global,
    patterns: usize,
    links: u32,
    rate: u32,
) -> Result<Vec<Matrix<F>>, AllocError>
    ensures { IfOk result (λ vectors. vectors.items ≡ grids_of patterns links rate F.zero) }
{
    let mut vectors = Vec::with_capacity(alloc, patterns)?;
    for _ in 0..patterns {
        vectors.push(Matrix::zeros(alloc, links, rate)?)?;
    }
    Ok(vectors)
}

// The basis of the unit vectors.
fn unit_basis<F: Field>(alloc: Global, rate: u32) -> Result<Basis<F>, AllocError>
    requires some_rate { 1 ≤ rate }
    requires low_rate { rate ≤ highest_rate }
    ensures frontier { IfOk result (HasNoLinks rate) }
    ensures vectors { IfOk result (HasUnitVectors rate) }
    ensures matrices { IfOk result HasMatrices }
{
    let basis = Basis::start(alloc, rate)?;
    Ok(basis)
}

// So many bases of the unit vectors.
fn unit_bases<F: Field>(alloc: Global, count: usize, rate: u32) -> Result<Vec<Basis<F>>, AllocError>
    requires some_rate { 1 ≤ rate }
    requires low_rate { rate ≤ highest_rate }
    ensures count { IfOk result (λ bases. length bases.items ≡ count) }
    ensures frontiers { IfOk result (λ bases. All (HasNoLinks rate) bases.items) }
    ensures vectors { IfOk result (λ bases. All (HasUnitVectors rate) bases.items) }
    ensures matrices { IfOk result (λ bases. All HasMatrices bases.items) }
{
    let mut bases = Vec::with_capacity(alloc, count)?;
    for _ in 0..count {
        bases.push(unit_basis(alloc, rate)?)?;
    }
    Ok(bases)
}

impl<F: Field> PartialCode<F> {
    /// A code of this rate, before any link is visited. The links are in order, and no rate is wanted.
    pub fn start(alloc: Global, net: &Net, rate: u32) -> Result<PartialCode<F>, AllocError>
        requires field { IsOfKind (marked_kind F.MARK) F.SIZE F.BYTES F.MARK F.product }
        requires some_rate { 1 ≤ rate }
        requires low_rate { rate ≤ highest_rate }
        requires few_demands { demand_count net.now ≤ pair_demands }
        requires order { IsTrue (are_in_order [] net.now.links) }
        requires named { net.now.field ≡ choice_of (marked_kind F.MARK) }
        requires unwanted { net.now.wanted ≡ None }
        ensures rate { IfOk result (λ code. code.rate ≡ rate) }
        ensures none { IfOk result (λ code. code.operands.items ≡ []) }
        ensures matrices { IfOk result (λ code. All HasMatrices code.bases.items) }
        ensures visited { IfOk result (IsBegun net.now) }
    {
        let links = net.links.len();
        let vectors = zero_vectors(alloc, net.patterns.len(), links as u32, rate)?;
        let bases = unit_bases(alloc, demands(net) as usize, rate)?;
        let operands = Vec::with_capacity(alloc, links)?;
        Ok(PartialCode {
            rate,
            operands,
            vectors,
            bases,
        })
    }
}
