//! A code in the making.

use field_vectors::Matrix;
use gf_tables::Field;
use node_program::OperandList;
use sink_basis::Basis;

/// What stands of a code after some links were visited, and what shows that all demands can decode in the end.
#[derive(Drop)]
pub struct PartialCode<F: Field> {
    /// The rate.
    pub rate: u32,
    /// The operands of the visited links.
    pub operands: Vec<OperandList>,
    /// For each pattern the vectors of all links, as its rows. Those of the links that weren't visited are zeros.
    pub vectors: Vec<Matrix<F>>,
    /// For each demand its basis, over the vectors of its pattern.
    pub bases: Vec<Basis<F>>,
}
