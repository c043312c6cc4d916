//! The decoders that bases give.
ghost use Rattle.std.specs.Prelude.{◌≡◌, ◌<◌, ◌≤◌, ◌++◌, All, IfOk, OnOk, length, map};
ghost use Rattle.net_model.specs.Limits.{highest_rate};
ghost use Rattle.lif_compiler.specs.Decoders.{AreReadOff, IsReadOffBasis};
ghost use Rattle.lif_compiler.specs.ReadOff.{AreApart, AreReached, AreSorted, entries_by, placed_links, row_by};

use field_vectors::Matrix;
use gf_tables::Field;
use net_model::LinkList;
use node_program::{Decoder, DecoderTable, Entries};
use sink_basis::Basis;
use std::alloc::{AllocError, Global};

// A frontier link, with the number of its path.
#[derive(Clone, Copy, Drop)]
struct PlacedLink {
    link: u32,
    path: u32,
}

/// A decoder for each basis, in order.
pub(crate) fn decoders_of<F: Field>(
    alloc: Global,
    bases: &[Basis<F>],
) -> Result<DecoderTable, AllocError>
    requires reached { All (λ basis. AreReached basis.frontier) bases.now }
    requires apart { All (λ basis. AreApart basis.frontier) bases.now }
    ensures count { IfOk result (λ decoders. length decoders ≡ length bases.now) }
    ensures each { IfOk result (AreReadOff bases.now) }
{
    let mut decoders = Vec::with_capacity(alloc, bases.len())?;
    for basis in bases {
        decoders.push(decoder_of(alloc, basis)?)?;
    }
    Ok(DecoderTable::of(decoders))
}

/// The decoder that a basis gives: its links are those of the frontier, on which each path has one, in
/// rising order.
pub(crate) fn decoder_of<F: Field>(alloc: Global, basis: &Basis<F>) -> Result<Decoder, AllocError>
    requires reached { AreReached basis.now.frontier }
    requires apart { AreApart basis.now.frontier }
    ensures { IfOk result (IsReadOffBasis basis.now) }
{
    let sorted = sorted_links(alloc, basis.frontier.as_slice())?;
    let links = links_of(alloc, &sorted)?;
    let entries = entries_of(alloc, &basis.inverses, &sorted)?;
    Ok(Decoder { links, entries })
}

// The links of a frontier with their paths, by rising links.
fn sorted_links(alloc: Global, frontier: &[Option<u32>]) -> Result<Vec<PlacedLink>, AllocError>
    requires reached { AreReached frontier.now }
    requires apart { AreApart frontier.now }
    requires few_links { length frontier.now ≤ highest_rate }
    ensures { IfOk result (λ sorted. AreSorted frontier.now sorted.items) }
{
    let mut placed = placed_links(alloc, frontier)?;
    placed.sort_unstable_by_key(|one| one.link);
    Ok(placed)
}

// The links of a frontier with their paths, path by path.
fn placed_links(alloc: Global, frontier: &[Option<u32>]) -> Result<Vec<PlacedLink>, AllocError>
    requires reached { AreReached frontier.now }
    requires few_links { length frontier.now ≤ highest_rate }
    ensures { IfOk result (λ placed. placed.items ≡ placed_links frontier.now) }
{
    let mut placed = Vec::with_capacity(alloc, frontier.len())?;
    for (path, reached) in frontier.iter().enumerate() {
        match reached {
            Some(link) => placed.push(PlacedLink {
                link: *link,
                path: path as u32,
            })?,
            None => unreachable!(),
        }
    }
    Ok(placed)
}

// The links alone.
fn links_of(alloc: Global, sorted: &[PlacedLink]) -> Result<LinkList, AllocError>
    ensures { IfOk result (λ links. links ≡ map (λ one. one.link) sorted.now) }
{
    let links = sorted.iter().map(|one| one.link).collect(alloc)?;
    Ok(LinkList::of(links))
}

// The entries row by row: row `i` has the numbers at place `i` of the inverse vectors of the paths.
fn entries_of<F: Field>(
    alloc: Global,
    inverses: &Matrix<F>,
    sorted: &[PlacedLink],
) -> Result<Entries, AllocError>
    requires paths { All (λ one. one.path < length inverses.now.rows) sorted.now }
    requires few_links { length sorted.now ≤ highest_rate }
    ensures value { IfOk result (λ entries. entries ≡ entries_by F.number inverses.now sorted.now) }
    ensures below { IfOk result (All (λ entry. entry < F.SIZE)) }
{
    let count = inverses.columns() as usize * sorted.len();
    let mut entries = Vec::with_capacity(alloc, count)?;
    for row in 0..inverses.columns() {
        push_row(&mut entries, inverses, sorted, row)?;
    }
    Ok(Entries::of(entries))
}

// Adds the numbers at a place of the inverse vectors of the paths.
fn push_row<F: Field>(
    entries: &mut Vec<u32>,
    inverses: &Matrix<F>,
    sorted: &[PlacedLink],
    row: u32,
) -> Result<(), AllocError>
    requires paths { All (λ one. one.path < length inverses.now.rows) sorted.now }
    requires row { row < inverses.now.columns }
    requires below { All (λ entry. entry < F.SIZE) entries.old.items }
    ensures added { OnOk result
        (entries.new.items ≡ entries.old.items ++ row_by F.number inverses.now sorted.now row) }
    ensures below { OnOk result (All (λ entry. entry < F.SIZE) entries.new.items) }
{
    for one in sorted {
        let inverse = inverses.row(one.path);
        entries.push(inverse[row as usize].number())?;
    }
    Ok(())
}
