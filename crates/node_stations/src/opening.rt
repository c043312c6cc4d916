//! The stations of a code, as they are made.
ghost use Rattle.std.specs.Prelude.{◌<◌, IfOk, length};
ghost use Rattle.gf_tables.specs.Kind.{IsOfKind};
ghost use Rattle.node_stations.specs.Table.{AreOpened, ArePlanned, relays_of, sinks_of};

use crate::station::Station;
use code_checker::Checked;
use field_rows::RowTables;
use gf_tables::Field;
use node_plans::LiveWiring;
use std::alloc::{AllocError, Global};
use std::sync::Arc;

/// The stations of all nodes of a code under a pattern, before any generation: nothing came, and nothing was
/// given. `F` is the code's field.
/// They share the tables of the code's links, of its sinks and of products, so that nodes, links,
/// operands, sinks and decoders are gone over once.
pub fn open_stations<F: Field>(
    alloc: Global,
    code: &Checked,
    pattern: u32,
) -> Result<Vec<Station<F>>, AllocError>
    requires pattern { pattern < length code.now.net.patterns }
    requires field { IsOfKind code.now.field F.SIZE F.BYTES F.MARK F.product }
    ensures opened { IfOk result (λ stations.
        AreOpened code.now pattern (relays_of stations.items) (sinks_of stations.items)) }
    ensures planned { IfOk result (λ stations.
        ArePlanned code.now pattern (relays_of stations.items) (sinks_of stations.items)) }
{
    let wiring = LiveWiring::of(alloc, code.code(), pattern)?;
    let tables = Arc::new(alloc, RowTables::new())?;
    let nodes = code.code().net.nodes.len();
    let mut stations = Vec::with_capacity(alloc, nodes)?;
    'nodes: for node in 0..nodes as u32 {
        stations.push(Station::open_with(alloc, code, pattern, node, &wiring, &tables)?)?;
    }
    Ok(stations)
}
