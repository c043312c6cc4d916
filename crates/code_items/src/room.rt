//! How much room the parts of a code file take.
ghost use Rattle.std.specs.Prelude.{◌≡◌, [], map};
ghost use Rattle.std.specs.List.{flat_map};
ghost use Rattle.gf_tables.specs.Product.{bytes_of_element};
ghost use Rattle.code_items.specs.Items.{name_item, link_items, pattern_items, operand_list_items, decoder_items, demand_items, operand_table_items, decoder_table_items, shared_table_items};
ghost use Rattle.code_items.specs.Room.{room_of, IsFrontRoom};
ghost use Rattle.code_items.specs.Sharing.{sames_after};

use crate::pieces::listed;
use gf_tables::{FieldKind, Width};
use net_model::{Link, Name, Net, Pattern};
use node_program::{Decoder, OperandList};

/// How many bytes an element takes.
pub(crate) fn element_room(field: FieldKind) -> usize
    ensures { result ≡ bytes_of_element field }
{
    match field.width() {
        Width::One => 1,
        Width::Two => 2,
    }
}

// How much room a pattern takes.
fn pattern_room(pattern: &Pattern) -> usize
    ensures { result ≡ room_of (pattern_items pattern.now) }
{
    let numbers = pattern.links.len().saturating_mul(2);
    numbers.saturating_add(pattern.name.bytes().len() + 3)
}

// How much room the operands of a link take, with their number.
fn operand_room(field: FieldKind, operands: &OperandList) -> usize
    ensures { result ≡ room_of (operand_list_items field operands.now) }
{
    let all = operands.len().saturating_mul(2 + element_room(field));
    all.saturating_add(2)
}

// How much room a decoder takes.
fn decoder_room(field: FieldKind, decoder: &Decoder) -> usize
    ensures { result ≡ room_of (decoder_items field decoder.now) }
{
    let links = decoder.links.len().saturating_mul(2);
    let entries = decoder.entries.len().saturating_mul(element_room(field));
    links.saturating_add(entries)
}

// How much room names take.
fn names_room(names: &[Name]) -> usize
    ensures { result ≡ room_of (map name_item names.now) }
{
    let mut room: usize = 0;
    for name in names {
        room = room.saturating_add(1 + name.bytes().len());
    }
    room
}

// How much room links take.
fn links_room(links: &[Link]) -> usize
    ensures { result ≡ room_of (flat_map link_items links.now) }
{
    let mut room: usize = 0;
    for link in links {
        room = room.saturating_add(5 + link.name.bytes().len());
    }
    room
}

// How much room patterns take.
fn patterns_room(patterns: &[Pattern]) -> usize
    ensures { result ≡ room_of (flat_map pattern_items patterns.now) }
{
    let mut room: usize = 0;
    for pattern in patterns {
        room = room.saturating_add(pattern_room(pattern));
    }
    room
}

/// How much room the operands of all links take, in bytes, or the greatest number of the machine
/// where that is less.
pub(crate) fn operands_room(field: FieldKind, table: &[OperandList]) -> usize
    ensures { result ≡ room_of (operand_table_items field table.now) }
{
    let mut room: usize = 0;
    for operands in table {
        room = room.saturating_add(operand_room(field, operands));
    }
    room
}

/// How much room decoders take in version 1, in bytes, or the greatest number of the machine where that is less.
pub fn decoders_room(field: FieldKind, decoders: &[Decoder]) -> usize
    ensures { result ≡ room_of (decoder_table_items field decoders.now) }
{
    let mut room: usize = 0;
    for decoder in decoders {
        room = room.saturating_add(decoder_room(field, decoder));
    }
    room
}

// How much room a demand takes in version 2, where this is its same.
fn demand_room(field: FieldKind, same: u32, decoder: &Decoder) -> usize
    ensures { result ≡ room_of (demand_items field same decoder.now) }
{
    if same == 0 {
        decoder_room(field, decoder).saturating_add(4)
    } else {
        4
    }
}

/// How much room decoders take in version 2, where these are the sames of their demands, in bytes, or the greatest number of
/// the machine where that is less.
pub fn shared_decoders_room(field: FieldKind, decoders: &[Decoder], sames: &[u32]) -> usize
    requires { sames.now ≡ sames_after [] decoders.now }
    ensures { result ≡ room_of (shared_table_items field [] decoders.now) }
{
    let mut room: usize = 0;
    for (demand, decoder) in decoders.iter().enumerate() {
        room = room.saturating_add(demand_room(field, sames[demand], decoder));
    }
    room
}

/// How much room all up to the operands takes, in bytes, behind a mark of four bytes, or the greatest
/// number of the machine where that is less.
pub(crate) fn front_room(net: &Net) -> usize
    ensures { IsFrontRoom net.now result }
{
    let nodes = names_room(net.nodes.as_slice());
    let links = links_room(net.links.as_slice());
    let sinks = net.sinks.len().saturating_mul(2);
    let patterns = patterns_room(listed(net));
    nodes
        .saturating_add(links)
        .saturating_add(sinks)
        .saturating_add(patterns)
        .saturating_add(17)
}
