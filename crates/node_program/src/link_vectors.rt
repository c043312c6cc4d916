//! The global coding vectors of a code's links under a pattern.
ghost use Rattle.std.specs.Prelude.{◌≡◌, ◌<◌, ℕ, false, length, slice_index_or, IfOk};
ghost use Rattle.gf_tables.specs.Kind.{IsOfKind};
ghost use Rattle.net_model.specs.Failed.{is_failed_in};
ghost use Rattle.node_program.specs.Vectors.{AreVectors, AreVectorsBefore};

use crate::Code;
use crate::carrying::carry;
use crate::liveness::operands_of;
use counted_steps::Steps;
use field_vectors::Matrix;
use gf_tables::Field;
use std::alloc::{AllocError, Global};
use std::marker::Brand;
use std::sync::ledger::{Blank, Ledger};

/// The global coding vectors of the links under a pattern: row `e` is that of link `e`, zero where the
/// link fails. It goes over the links once and makes each row of rows that stand already, so an operand
/// costs at most as many products as the rate.
pub fn vectors<F: Field>(alloc: Global, code: &Code, pattern: u32) -> Result<Matrix<F>, AllocError>
    requires pattern { pattern < length code.now.net.patterns }
    requires field { IsOfKind code.now.field F.SIZE F.BYTES F.MARK F.product }
    ensures { IfOk result (AreVectors F.number code.now pattern) }
{
    let count = code.net.links.len() as u32;
    let failed = code.net.failed_table(alloc, pattern)?;
    let mut vectors = Matrix::zeros(alloc, count, code.rate)?;
    fill::<F, Brand>(&mut vectors, code, pattern, &failed, Blank::new(1));
    Ok(vectors)
}

// Makes each row the vector of its link, by which links fail.
fn fill<F: Field, L: Ledger>(
    vectors: &mut Matrix<F>,
    code: &Code,
    pattern: u32,
    failed: &[bool],
    blank: Blank,
)
    requires pattern { pattern < length code.now.net.patterns }
    requires each_link { length failed.now ≡ length code.now.net.links }
    requires failed { (link : ℕ) → slice_index_or failed.now link false
        ≡ is_failed_in code.now.net.patterns pattern link }
    requires field { IsOfKind code.now.field F.SIZE F.BYTES F.MARK F.product }
    requires zeros { AreVectorsBefore F.number F.zero code.now pattern 0 vectors.old }
    requires name { blank.name ≡ L.name }
    requires parts { blank.parts ≡ L.parts }
    requires some_part { 0 < blank.parts }
    ensures { AreVectors F.number code.now pattern vectors.new }
{
    let mut steps = Steps::<L>::start(blank);
    for link in 0..vectors.rows() {
        if !failed[link as usize] {
            let leaves = code.net.leaves_source(link);
            carry(vectors, link, leaves, operands_of(code, link), &mut steps);
        }
    }
}
