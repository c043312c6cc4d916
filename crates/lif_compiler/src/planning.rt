//! The hops over each link.
ghost use Rattle.std.specs.Prelude.{◌≡◌, ◌<◌, ◌≤◌, ℕ, [], All, IfOk, IsTrue, OnOk, length, map, nat_eq, slice_index};
ghost use Rattle.std.specs.List.{concat};
ghost use Rattle.failure_patterns.specs.UsedField.{pair_demands};
ghost use Rattle.net_model.specs.Limits.{highest_rate};
ghost use Rattle.net_model.specs.Lists.{are_distinct};
ghost use Rattle.net_model.specs.Renumbering.{HasEachOnce};
ghost use Rattle.lif_compiler.specs.declared.hops.Hop.{Hop};
ghost use Rattle.lif_compiler.specs.Hops.{HaveHops};
ghost use Rattle.lif_compiler.specs.Routes.{ArePathsBelow, IsInverse, routes_of_certs};
ghost use Rattle.lif_compiler.specs.Planning.{Gains, hops_of_demand, hops_of_path, list_of};

use crate::{Hop, HopList};
use cut_witness::Cert;
use net_model::LinkList;
use std::alloc::{AllocError, Global};

/// For each link the hops over it, by the first `rate` paths of each certificate, which share no
/// link. The paths have old numbers and the hops new ones: link `i` was link `order[i]`.
pub(crate) fn hops_of(
    alloc: Global,
    certs: &[Cert],
    order: &[u32],
    rate: u32,
) -> Result<Vec<HopList>, AllocError>
    requires order { HasEachOnce (length order.now) order.now }
    requires links { All (λ cert. ArePathsBelow (length order.now) cert.paths) certs.now }
    requires enough { All (λ cert. rate ≤ length cert.paths) certs.now }
    requires apart { All (λ paths. IsTrue (are_distinct nat_eq (concat paths)))
        (routes_of_certs order.now rate certs.now) }
    requires few_demands { length certs.now ≤ pair_demands }
    requires few_paths { rate ≤ highest_rate }
    ensures count { IfOk result (λ hops. length hops.items ≡ length order.now) }
    ensures hops { IfOk result (λ hops.
        HaveHops (routes_of_certs order.now rate certs.now) hops.items) }
{
    let new_numbers = inverse(alloc, order)?;
    let mut hops = empty_lists(alloc, order.len())?;
    for (demand, cert) in certs.iter().enumerate() {
        let paths = &cert.paths.as_slice()[..rate as usize];
        add_demand(&mut hops, demand as u32, paths, &new_numbers)?;
    }
    finished(alloc, hops)
}

// For each old link its new number.
fn inverse(alloc: Global, order: &[u32]) -> Result<Vec<u32>, AllocError>
    requires { HasEachOnce (length order.now) order.now }
    ensures { IfOk result (λ inverse. IsInverse order.now inverse.items) }
{
    let mut new_numbers = vec![in alloc; 0; order.len()]?;
    for (new, old) in order.iter().enumerate() {
        new_numbers[*old as usize] = new as u32;
    }
    Ok(new_numbers)
}

// So many empty lists.
fn empty_lists(alloc: Global, links: usize) -> Result<Vec<Vec<Hop>>, AllocError>
    ensures count { IfOk result (λ lists. length lists.items ≡ links) }
    ensures empty { IfOk result (λ lists. (link : ℕ) → list_of lists.items link ≡ []) }
{
    let mut lists = Vec::with_capacity(alloc, links)?;
    for _ in 0..links {
        lists.push(Vec::new(alloc))?;
    }
    Ok(lists)
}

// Adds the hops of the paths of a demand, with the new numbers of their links.
fn add_demand(
    hops: &mut [Vec<Hop>],
    demand: u32,
    paths: &[LinkList],
    new_numbers: &[u32],
) -> Result<(), AllocError>
    requires old { ArePathsBelow (length new_numbers.now) paths.now }
    requires new { All (λ link. link < length hops.old) new_numbers.now }
    requires few_paths { length paths.now ≤ highest_rate }
    ensures { OnOk result (Gains
        (hops_of_demand demand (map (map (slice_index new_numbers.now)) paths.now))
        hops.old hops.new) }
{
    for (path, links) in paths.iter().enumerate() {
        add_path(hops, demand, path as u32, links.as_slice(), new_numbers)?;
    }
    Ok(())
}

// Adds the hops of a path of a demand, with the new numbers of its links.
fn add_path(
    hops: &mut [Vec<Hop>],
    demand: u32,
    path: u32,
    links: &[u32],
    new_numbers: &[u32],
) -> Result<(), AllocError>
    requires old { All (λ link. link < length new_numbers.now) links.now }
    requires new { All (λ link. link < length hops.old) new_numbers.now }
    ensures { OnOk result (Gains
        (hops_of_path demand path (map (slice_index new_numbers.now) links.now))
        hops.old hops.new) }
{
    let mut before = path;
    for old in links {
        let link = new_numbers[*old as usize];
        let hop = Hop {
            demand,
            path,
            before,
        };
        hops[link as usize].push(hop)?;
        before = link;
    }
    Ok(())
}

// The lists, each as one of hops.
fn finished(alloc: Global, lists: Vec<Vec<Hop>>) -> Result<Vec<HopList>, AllocError>
    ensures { IfOk result (λ hops. hops.items ≡ map (λ list. list.items) lists.items) }
{
    lists
        .into_iter()
        .map(|list| HopList::of(list))
        .collect(alloc)
}
