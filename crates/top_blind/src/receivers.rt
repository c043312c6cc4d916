//! The sinks whose vectors have the rank of a code where links fail.
ghost use Rattle.std.specs.Prelude.{◌≡◌, ◌<◌, ◌≤◌, ◌+◌, ◌++◌, ◌∷◌, [], All, IfOk, OnOk, length, map, string_bytes, vec_capacity, vec_len};
ghost use Rattle.top_base.specs.Lines.{rank_line};
ghost use Rattle.top_blind.specs.Blind.{paths_among, ranks_text};
ghost use Rattle.top_blind.specs.Ranked.{HasRank};
ghost use Rattle.vector_headers.specs.Receiving.{rank_into};

use gf_tables::Field;
use name_texts::node_name;
use std::alloc::{AllocError, Global};
use top_base::{LINE_ROOM, dotted_path, push_rank};
use vector_headers::{Blind, Fabric, ins_where, rank_into};

/// The sinks of a code that have its rank where links fail: the path of each one's file and its live links; and the lines of all
/// sinks' ranks, with room for one more.
#[derive(Drop)]
pub struct Receivers {
    pub lines: Vec<u8>,
    pub paths: Vec<String>,
    pub ins: Vec<Vec<u32>>,
}

// Adds a sink, by its node: the line of its rank, and where that is the code's its path and its links.
fn add_sink<F: Field>(
    alloc: Global,
    prefix: &str,
    fabric: &Fabric<'_, F>,
    blind: &mut Blind<F>,
    sink: u32,
    found: &mut Receivers,
) -> Result<(), AllocError>
    requires sink { sink < length fabric.now.code.net.nodes }
    requires field { blind.old.field ≡ fabric.now.code.field }
    requires rate { blind.old.rate ≡ fabric.now.code.rate }
    requires each { vec_len found.old.ins ≡ vec_len found.old.paths }
    requires ranked { All (λ links. HasRank fabric.now.code fabric.now.failed links.items)
        found.old.ins.items }
    ensures field { blind.new.field ≡ blind.old.field }
    ensures rate { blind.new.rate ≡ blind.old.rate }
    ensures lines { OnOk result (found.new.lines.items ≡ found.old.lines.items
        ++ rank_line fabric.now.code.net fabric.now.code.rate sink
        (rank_into fabric.now.code fabric.now.failed sink)) }
    ensures paths { OnOk result (map string_bytes found.new.paths.items
        ≡ map string_bytes found.old.paths.items
        ++ paths_among prefix.now fabric.now.code fabric.now.failed (sink ∷ [])) }
    ensures each { OnOk result (vec_len found.new.ins ≡ vec_len found.new.paths) }
    ensures ranked { OnOk result (All (λ links. HasRank fabric.now.code fabric.now.failed
        links.items) found.new.ins.items) }
{
    let code = fabric.code();
    let ins = ins_where(alloc, fabric, sink)?;
    let rank = rank_into(fabric, blind, &ins);
    push_rank(&mut found.lines, &code.net, code.rate, sink, rank)?;
    if rank == code.rate {
        let path = dotted_path(alloc, prefix, node_name(&code.net, sink as usize))?;
        found.paths.push(path)?;
        found.ins.push(ins)?;
    }
    Ok(())
}

/// Finds the sinks that have the rank of a fabric's code. `blind` is of the code's field and rate, and forgets what it kept.
pub fn find_receivers<F: Field>(
    alloc: Global,
    prefix: &str,
    fabric: &Fabric<'_, F>,
    blind: &mut Blind<F>,
) -> Result<Receivers, AllocError>
    requires field { blind.old.field ≡ fabric.now.code.field }
    requires rate { blind.old.rate ≡ fabric.now.code.rate }
    ensures field { blind.new.field ≡ blind.old.field }
    ensures rate { blind.new.rate ≡ blind.old.rate }
    ensures lines { IfOk result (λ found. found.lines.items
        ≡ ranks_text fabric.now.code fabric.now.failed fabric.now.code.net.sinks) }
    ensures room { IfOk result (λ found. vec_len found.lines + LINE_ROOM
        ≤ vec_capacity found.lines) }
    ensures paths { IfOk result (λ found. map string_bytes found.paths.items
        ≡ paths_among prefix.now fabric.now.code fabric.now.failed fabric.now.code.net.sinks) }
    ensures each { IfOk result (λ found. vec_len found.ins ≡ vec_len found.paths) }
    ensures ranked { IfOk result
        (λ found. All (λ links. HasRank fabric.now.code fabric.now.failed links.items)
        found.ins.items) }
{
    let sinks = &fabric.code().net.sinks;
    let mut found = Receivers {
        lines: Vec::new(alloc),
        paths: Vec::with_capacity(alloc, sinks.len())?,
        ins: Vec::with_capacity(alloc, sinks.len())?,
    };
    for place in 0..sinks.len() {
        add_sink(alloc, prefix, fabric, blind, *sinks.at(place), &mut found)?;
    }
    found.lines.reserve(LINE_ROOM)?;
    Ok(found)
}
