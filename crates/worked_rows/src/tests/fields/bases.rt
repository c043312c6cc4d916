//! Bases on a frontier: the vectors and inverses after vectors were replaced, by both ways.
ghost use Rattle.std.specs.Prelude.{◌<◌, ◌≤◌};
ghost use Rattle.net_model.specs.Limits.{highest_rate};

use super::counting::{Counted, run_over};
use super::numbered::{element, row, two_by_two};
use counted_steps::Steps;
use field_vectors::{Matrix, dot};
use gf_tables::{Field, Gf8, Gf16};
use net_model::HIGHEST_RATE;
use sink_basis::Basis;
use std::alloc::{AllocError, Global};
use std::sync::ledger::Ledger;

// The product of row `j` of a matrix and row `k` of another, or none where there is no such place.
fn product<F: Field>(a: &Matrix<F>, j: u32, b: &Matrix<F>, k: u32) -> Option<F> {
    if j >= a.rows() || k >= b.rows() || a.columns() != b.columns() {
        return None;
    }
    let mut sum = F::zero();
    for place in 0..a.columns() {
        sum = sum.add(a.at(j, place).mul(b.at(k, place)));
    }
    Some(sum)
}

// Whether the products of all vectors and inverses are the entries of the identity.
fn is_dual<F: Field>(basis: &Basis<F>) -> bool {
    let mut dual = basis.vectors.rows() == basis.inverses.rows();
    for j in 0..basis.vectors.rows() {
        for k in 0..basis.inverses.rows() {
            let expected = if j == k { F::one() } else { F::zero() };
            dual = dual && product(&basis.vectors, j, &basis.inverses, k) == Some(expected);
        }
    }
    dual
}

// Whether the entries of two matrices are the same.
fn are_same<F: Field>(a: &Matrix<F>, b: &Matrix<F>) -> bool {
    if a.rows() != b.rows() || a.columns() != b.columns() {
        return false;
    }
    let mut same = true;
    for i in 0..a.rows() {
        for j in 0..a.columns() {
            same = same && a.at(i, j) == b.at(i, j);
        }
    }
    same
}

// How the inverse vectors are found: by one pass over the old ones, or as the inverse of the vectors.
#[derive(Clone, Copy)]
enum Way {
    Advance,
    Renew,
}

// Replaces the vector of a path where the product isn't zero, and tells whether it did.
fn replace<F: Field, L: Ledger>(
    alloc: Global,
    way: Way,
    basis: &mut Basis<F>,
    path: u32,
    link: u32,
    vector: &[F],
    steps: &mut Steps<L>,
) -> Result<bool, AllocError> {
    let h = basis.frontier.len();
    if path as usize >= h || vector.len() != h {
        return Ok(false);
    }
    if dot(vector, basis.inverses.row(path), steps) == F::zero() {
        return Ok(false);
    }
    match way {
        Way::Advance => basis.advance(path, link, vector, steps),
        Way::Renew => basis.renew(alloc, path, link, vector)?,
    }
    Ok(true)
}

// The unit vectors of length 2 with the vector of one path replaced.
#[derive(Clone, Copy)]
struct FirstReplaced {
    way: Way,
    path: u32,
    vector: [u32; 2],
}

// The links on the frontier of two paths, and the numbers of their vectors and inverses.
type TwoPaths = ([Option<u32>; 2], [u32; 4], [u32; 4]);

fn two_paths<F: Field>(basis: &Basis<F>) -> Option<TwoPaths> {
    let links = match basis.frontier.as_slice() {
        [first, second] => [*first, *second],
        _ => return None,
    };
    let vectors = two_by_two(&basis.vectors)?;
    let inverses = two_by_two(&basis.inverses)?;
    Some((links, vectors, inverses))
}

// Two paths of a basis, after the vector of one was replaced, where that could be. The link is 7.
fn paths_after<F: Field, L: Ledger>(
    alloc: Global,
    way: Way,
    basis: &mut Basis<F>,
    path: u32,
    vector: &[F],
    steps: &mut Steps<L>,
) -> Option<TwoPaths> {
    replace(alloc, way, basis, path, 7, vector, steps).ok()?;
    two_paths(basis)
}

// The same of the unit vectors of length 2.
fn first_replaced<F: Field, L: Ledger>(
    alloc: Global,
    way: Way,
    path: u32,
    vector: &[F],
    steps: &mut Steps<L>,
) -> Option<TwoPaths> {
    match Basis::<F>::start(alloc, 2) {
        Ok(mut basis) => paths_after(alloc, way, &mut basis, path, vector, steps),
        Err(_) => None,
    }
}

impl Counted for FirstReplaced {
    type Found = Option<TwoPaths>;

    fn run<F: Field, L: Ledger>(self, alloc: Global, mut steps: Steps<L>) -> Option<TwoPaths> {
        match row::<F>(alloc, &self.vector) {
            Ok(vector) => first_replaced(alloc, self.way, self.path, &vector, &mut steps),
            Err(_) => None,
        }
    }
}

// The first path and vector of which another thing comes of a way.
fn wrong_case(alloc: Global, way: Way) -> Option<(u32, [u32; 2])> {
    let cases = [
        (0, [1, 1], ([Some(7), None], [1, 1, 0, 1], [1, 0, 1, 1])),
        (1, [0, 2], ([None, Some(7)], [1, 0, 0, 2], [1, 0, 0, 0x8E])),
        (1, [1, 0], ([None, None], [1, 0, 0, 1], [1, 0, 0, 1])),
    ];
    for (path, vector, right) in cases {
        let first = FirstReplaced { way, path, vector };
        if run_over::<Gf8, FirstReplaced>(alloc, first) != Some(right) {
            return Some((path, vector));
        }
    }
    None
}

#[test]
fn the_first_vector_is_replaced(rt: HostRuntime) {
    assert!(rt; wrong_case(rt.alloc(), Way::Advance).is_none());
    assert!(rt; wrong_case(rt.alloc(), Way::Renew).is_none());
}

// The number at a place of the vector of a round, by a rule.
fn number_at(round: u32, place: u32) -> u32 {
    let scale = place.wrapping_mul(0x1F7B).wrapping_add(3);
    let number = round
        .wrapping_mul(0x4E35)
        .wrapping_add(0x1D3F)
        .wrapping_mul(scale);
    number >> 8 & 0xFFFF
}

// The vector of a round: in every fifth that of another path, whose product is zero, and else numbers by the rule.
fn vector_of<F: Field>(
    alloc: Global,
    basis: &Basis<F>,
    round: u32,
    path: u32,
) -> Result<Vec<F>, AllocError> {
    let h = basis.vectors.rows();
    if round % 5 == 4 && path < h {
        let other = if path == 0 { h - 1 } else { path - 1 };
        return Vec::from_slice(alloc, basis.vectors.row(other));
    }
    let mut vector = Vec::new(alloc);
    for place in 0..h {
        vector.push(element(number_at(round, place)))?;
    }
    Ok(vector)
}

// Whether two bases have the same vectors and inverses, and the products of these are right.
fn are_right<F: Field>(advanced: &Basis<F>, renewed: &Basis<F>) -> bool {
    is_dual(advanced)
        && are_same(&advanced.vectors, &renewed.vectors)
        && are_same(&advanced.inverses, &renewed.inverses)
}

// Replaces the vector of a path in two bases, of which one is advanced and the other renewed, and tells whether both did.
fn replace_both<F: Field, L: Ledger>(
    alloc: Global,
    advanced: &mut Basis<F>,
    renewed: &mut Basis<F>,
    path: u32,
    round: u32,
    vector: &[F],
    steps: &mut Steps<L>,
) -> Result<bool, AllocError> {
    let is_advanced = replace(alloc, Way::Advance, advanced, path, round, vector, steps)?;
    let is_renewed = replace(alloc, Way::Renew, renewed, path, round, vector, steps)?;
    Ok(is_advanced && is_renewed)
}

// One round for both, and whether a vector was replaced.
fn go_on<F: Field, L: Ledger>(
    alloc: Global,
    advanced: &mut Basis<F>,
    renewed: &mut Basis<F>,
    round: u32,
    path: u32,
    steps: &mut Steps<L>,
) -> Result<bool, AllocError> {
    let vector = vector_of(alloc, advanced, round, path)?;
    replace_both(alloc, advanced, renewed, path, round, &vector, steps)
}

// So many rounds from the unit vectors of a length.
#[derive(Clone, Copy)]
struct Rounds {
    h: u32,
    rounds: u32,
}

// In how many of so many rounds a vector was replaced, and whether both were right after each.
fn go_round<F: Field, L: Ledger>(
    alloc: Global,
    advanced: &mut Basis<F>,
    renewed: &mut Basis<F>,
    rounds: Rounds,
    steps: &mut Steps<L>,
) -> Option<(u32, bool)>
    requires some_paths { 0 < rounds.h }
{
    let mut right = are_right(advanced, renewed);
    let mut made = 0u32;
    for round in 0..rounds.rounds {
        match go_on(alloc, advanced, renewed, round, round % rounds.h, steps) {
            Ok(is_made) => made = made.wrapping_add(is_made as u32),
            Err(_) => return None,
        }
        right = right && are_right(advanced, renewed);
    }
    Some((made, right))
}

// The same from the unit vectors for the basis that is renewed.
fn go_round_beside<F: Field, L: Ledger>(
    alloc: Global,
    advanced: &mut Basis<F>,
    rounds: Rounds,
    steps: &mut Steps<L>,
) -> Option<(u32, bool)>
    requires some_paths { 0 < rounds.h }
    requires few_paths { rounds.h ≤ highest_rate }
{
    match Basis::<F>::start(alloc, rounds.h) {
        Ok(mut renewed) => go_round(alloc, advanced, &mut renewed, rounds, steps),
        Err(_) => None,
    }
}

impl Counted for Rounds {
    type Found = Option<(u32, bool)>;

    fn run<F: Field, L: Ledger>(self, alloc: Global, mut steps: Steps<L>) -> Option<(u32, bool)> {
        if self.h < 1 || self.h > HIGHEST_RATE {
            return None;
        }
        match Basis::<F>::start(alloc, self.h) {
            Ok(mut advanced) => go_round_beside(alloc, &mut advanced, self, &mut steps),
            Err(_) => None,
        }
    }
}

// In how many of so many rounds a vector was replaced, and whether both bases were right after each.
fn replaced<F: Field>(alloc: Global, h: u32, rounds: u32) -> Option<(u32, bool)> {
    run_over::<F, Rounds>(alloc, Rounds { h, rounds })
}

#[test]
fn both_ways_agree(rt: HostRuntime) {
    let are_right = replaced::<Gf8>(rt.alloc(), 2, 10) == Some((8, true))
        && replaced::<Gf16>(rt.alloc(), 4, 50) == Some((40, true))
        && replaced::<Gf8>(rt.alloc(), 1, 3) == Some((3, true))
        && replaced::<Gf16>(rt.alloc(), HIGHEST_RATE, 3) == Some((3, true));
    assert!(rt; are_right);
}
