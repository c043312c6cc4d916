//! Bases on the frontier of a sink's paths.
ghost use Rattle.std.specs.Prelude.{◌≡◌, ◌≢◌, ◌*◌, ◌<◌, ◌≤◌, length, None, Some, replicate, slice_set, IfOk, OnOk, OnErr};
ghost use Rattle.counted_steps.specs.Steps.{RoseBy, RoseByAtMost};
ghost use Rattle.field_vectors.specs.Elements.{dot_of, identity_of};
ghost use Rattle.field_vectors.specs.Grid.{AreMatrices, row_of, with_row};
ghost use Rattle.net_model.specs.Limits.{highest_rate};
ghost use Rattle.sink_basis.specs.Basis.{IsBasis, IsNumbered};
ghost use Rattle.sink_basis.specs.Renewal.{renewal_steps};

use crate::inverting::{inverses_of, replaced};
use crate::renewal::{identity, no_links, renew_inverses};
use counted_steps::Steps;
use field_vectors::Matrix;
use gf_tables::Field;
use item_list::ItemList;
use std::alloc::{AllocError, Global};
use std::sync::ledger::Ledger;

/// For each path the last link that was visited on it, or none.
pub type Frontier = ItemList<Option<u32>>;

/// For each of 1 to 32 paths its frontier link, and that link's vector. The vectors are a basis of all vectors of
/// that length: the product of vector `j` and inverse `k` is one for `j = k` and zero otherwise.
#[derive(Drop)]
pub struct Basis<F: Field> {
    pub frontier: Frontier,
    pub vectors: Matrix<F>,
    pub inverses: Matrix<F>,
    ghost basis: { IsBasis F.zero F.one F.add F.mul (length frontier) vectors inverses },
    ghost matrices: { AreMatrices (IsNumbered F.number F.of_number F.SIZE) vectors inverses },
    ghost few_paths: { length frontier ≤ highest_rate },
}

impl<F: Field> Basis<F> {
    /// The basis of the unit vectors of length `h`, with no link on any path.
    pub fn start(alloc: Global, h: u32) -> Result<Self, AllocError>
        requires some_rate { 1 ≤ h }
        requires low_rate { h ≤ highest_rate }
        ensures frontier { IfOk result (λ basis. basis.frontier ≡ replicate h None) }
        ensures vectors { IfOk result (λ basis. basis.vectors.rows ≡ identity_of F.zero F.one h) }
        ensures inverses { IfOk result (λ basis. basis.inverses.rows ≡ identity_of F.zero F.one h) }
    {
        let frontier = no_links(alloc, h)?;
        let vectors = identity(alloc, h)?;
        let inverses = identity(alloc, h)?;
        Ok(Basis {
            frontier,
            vectors,
            inverses,
        })
    }

    /// Makes `link` the frontier link of the path, and `vector` its vector, by one pass over the inverse vectors
    /// (Jaggi et al. 2005). All other links and vectors stay, and where the vector is the path's already, the inverse
    /// vectors do too. It takes no memory. It counts a step for each product of elements and one for the inverse of an
    /// element: none where the vector is the path's already, and at most three for each entry of a matrix. The product
    /// of the vector and the path's inverse must not be zero.
    pub fn advance<L: Ledger>(&mut self, path: u32, link: u32, vector: &[F], steps: &mut Steps<L>)
        requires path { path < length self.old.frontier }
        requires width { length vector.now ≡ length self.old.frontier }
        requires nonzero { dot_of F.zero F.add F.mul vector.now (row_of self.old.inverses path)
            ≢ F.zero }
        ensures frontier { self.new.frontier ≡ slice_set self.old.frontier path (Some link) }
        ensures vectors { self.new.vectors ≡ with_row self.old.vectors path vector.now }
        ensures same_vector { row_of self.old.vectors path ≡ vector.now
            → RoseBy 0 steps.old steps.new }
        ensures new_vector { row_of self.old.vectors path ≢ vector.now → RoseBy
            (renewal_steps F.number F.zero F.add F.mul path vector.now self.old.inverses)
            steps.old steps.new }
        ensures few_ticks { let h = length self.old.frontier
            in RoseByAtMost (3 * h * h) steps.old steps.new }
    {
        if self.vectors.row(path) != vector {
            renew_inverses(&mut self.inverses, path, vector, steps);
            self.vectors.put_row(path, vector);
        }
        self.frontier.set(path as usize, Some(link));
    }

    /// Makes `link` the frontier link of the path, and `vector` its vector, and finds the inverse vectors anew, by the
    /// inverse of the vectors. All other links and vectors stay. The product of the vector and the path's inverse must
    /// not be zero. Where there is too little memory, all is as before.
    pub fn renew(
        &mut self,
        alloc: Global,
        path: u32,
        link: u32,
        vector: &[F],
    ) -> Result<(), AllocError>
        requires path { path < length self.old.frontier }
        requires width { length vector.now ≡ length self.old.frontier }
        requires nonzero { dot_of F.zero F.add F.mul vector.now (row_of self.old.inverses path)
            ≢ F.zero }
        ensures frontier { OnOk result
            (self.new.frontier ≡ slice_set self.old.frontier path (Some link)) }
        ensures vectors { OnOk result
            (self.new.vectors ≡ with_row self.old.vectors path vector.now) }
        ensures refused_frontier { OnErr result (self.new.frontier ≡ self.old.frontier) }
        ensures refused_vectors { OnErr result (self.new.vectors ≡ self.old.vectors) }
        ensures refused_inverses { OnErr result (self.new.inverses ≡ self.old.inverses) }
    {
        let vectors = replaced(alloc, &self.vectors, path, vector)?;
        let inverses = inverses_of(alloc, &vectors)?;
        self.vectors = vectors;
        self.inverses = inverses;
        self.frontier.set(path as usize, Some(link));
        Ok(())
    }
}
