//! Writing the parts of a code file.
ghost use Rattle.std.specs.Prelude.{◌≡◌, ◌<◌, [], IsTrue};
ghost use Rattle.std.specs.List.{flat_map, list_all};
ghost use Rattle.gf_tables.specs.Product.{size_of};
ghost use Rattle.code_items.specs.Items.{link_items, pattern_items, operand_items, operands_items, operand_list_items, decoder_items, demand_items, head_items, front_items, operand_table_items, decoder_table_items, shared_table_items};
ghost use Rattle.code_items.specs.Sharing.{sames_after};
ghost use Rattle.code_items.specs.Written.{Adds, are_elements, has_elements};

use crate::pieces::{
    listed, put_element, put_elements, put_long, put_name, put_names, put_number, put_numbers,
};
use gf_tables::FieldKind;
use net_model::{Link, Net, Pattern};
use node_program::{Decoder, Operand, OperandList};
use std::alloc::{AllocError, Global};

// Adds a link.
fn put_link(out: &mut Vec<u8>, link: &Link) -> Result<(), AllocError>
    ensures { Adds result out.old out.new (link_items link.now) }
{
    put_name(out, &link.name)?;
    put_number(out, link.tail as usize)?;
    put_number(out, link.head as usize)
}

// Adds links.
fn put_links(out: &mut Vec<u8>, links: &[Link]) -> Result<(), AllocError>
    ensures { Adds result out.old out.new (flat_map link_items links.now) }
{
    for link in links {
        put_link(out, link)?;
    }
    Ok(())
}

// Adds a pattern.
fn put_pattern(out: &mut Vec<u8>, pattern: &Pattern) -> Result<(), AllocError>
    ensures { Adds result out.old out.new (pattern_items pattern.now) }
{
    put_name(out, &pattern.name)?;
    put_number(out, pattern.links.len())?;
    put_numbers(out, pattern.links.as_slice())
}

// Adds patterns.
fn put_patterns(out: &mut Vec<u8>, patterns: &[Pattern]) -> Result<(), AllocError>
    ensures { Adds result out.old out.new (flat_map pattern_items patterns.now) }
{
    for pattern in patterns {
        put_pattern(out, pattern)?;
    }
    Ok(())
}

// Adds an operand.
fn put_operand(out: &mut Vec<u8>, field: FieldKind, operand: Operand) -> Result<(), AllocError>
    requires { operand.times < size_of field }
    ensures { Adds result out.old out.new (operand_items field operand) }
{
    put_number(out, operand.from as usize)?;
    put_element(out, field, operand.times)
}

// Adds the operands of a link, without their number.
fn put_operands(out: &mut Vec<u8>, field: FieldKind, operands: &[Operand]) -> Result<(), AllocError>
    requires { IsTrue (are_elements field operands.now) }
    ensures { Adds result out.old out.new (operands_items field operands.now) }
{
    for operand in operands {
        put_operand(out, field, *operand)?;
    }
    Ok(())
}

// Adds the operands of a link, behind their number.
fn put_operand_list(
    out: &mut Vec<u8>,
    field: FieldKind,
    operands: &OperandList,
) -> Result<(), AllocError>
    requires { IsTrue (are_elements field operands.now) }
    ensures { Adds result out.old out.new (operand_list_items field operands.now) }
{
    put_number(out, operands.len())?;
    put_operands(out, field, operands.as_slice())
}

/// Adds the operands of each link, each behind their number. Where memory runs out, some may have been
/// added.
pub(crate) fn put_operand_table(
    out: &mut Vec<u8>,
    field: FieldKind,
    table: &[OperandList],
) -> Result<(), AllocError>
    requires { IsTrue (list_all (are_elements field) table.now) }
    ensures { Adds result out.old out.new (operand_table_items field table.now) }
{
    for operands in table {
        put_operand_list(out, field, operands)?;
    }
    Ok(())
}

// Adds a decoder.
fn put_decoder(out: &mut Vec<u8>, field: FieldKind, decoder: &Decoder) -> Result<(), AllocError>
    requires { IsTrue (has_elements field decoder.now) }
    ensures { Adds result out.old out.new (decoder_items field decoder.now) }
{
    put_numbers(out, decoder.links.as_slice())?;
    put_elements(out, field, decoder.entries.as_slice())
}

/// Adds decoders as in version 1. Where memory runs out, some may have been added.
pub fn put_decoders(
    out: &mut Vec<u8>,
    field: FieldKind,
    decoders: &[Decoder],
) -> Result<(), AllocError>
    requires { IsTrue (list_all (has_elements field) decoders.now) }
    ensures { Adds result out.old out.new (decoder_table_items field decoders.now) }
{
    for decoder in decoders {
        put_decoder(out, field, decoder)?;
    }
    Ok(())
}

// Adds what stands for a demand in version 2, where this is its same.
fn put_demand(
    out: &mut Vec<u8>,
    field: FieldKind,
    same: u32,
    decoder: &Decoder,
) -> Result<(), AllocError>
    requires { IsTrue (has_elements field decoder.now) }
    ensures { Adds result out.old out.new (demand_items field same decoder.now) }
{
    put_long(out, same)?;
    if same == 0 {
        put_decoder(out, field, decoder)?;
    }
    Ok(())
}

/// Adds decoders as in version 2, where these are the sames of their demands. Where memory runs out, some may have been added.
pub fn put_shared_decoders(
    out: &mut Vec<u8>,
    field: FieldKind,
    decoders: &[Decoder],
    sames: &[u32],
) -> Result<(), AllocError>
    requires elements { IsTrue (list_all (has_elements field) decoders.now) }
    requires sames { sames.now ≡ sames_after [] decoders.now }
    ensures { Adds result out.old out.new (shared_table_items field [] decoders.now) }
{
    for (demand, decoder) in decoders.iter().enumerate() {
        put_demand(out, field, sames[demand], decoder)?;
    }
    Ok(())
}

// Adds the mark, the version, the field and the rate.
fn put_head(
    out: &mut Vec<u8>,
    mark: &[u8],
    version: u8,
    field: FieldKind,
    rate: u32,
) -> Result<(), AllocError>
    requires { rate < 256 }
    ensures { Adds result out.old out.new (head_items mark.now version field rate) }
{
    out.extend_from_slice(mark)?;
    Ok(out.extend_from_slice(&[version, field.mark(), rate as u8])?)
}

/// Adds all up to the operands. Where memory runs out, some may have been added.
#[tactic(auto, unfolding(crate::specs::Items::front_items))]
pub(crate) fn put_front(
    out: &mut Vec<u8>,
    mark: &[u8],
    version: u8,
    net: &Net,
    rate: u32,
    field: FieldKind,
) -> Result<(), AllocError>
    requires { rate < 256 }
    ensures { Adds result out.old out.new (front_items mark.now version net.now rate field) }
{
    let listed = listed(net);
    put_head(out, mark, version, field, rate)?;
    put_number(out, net.nodes.len())?;
    put_names(out, net.nodes.as_slice())?;
    put_number(out, net.links.len())?;
    put_links(out, net.links.as_slice())?;
    put_number(out, net.source as usize)?;
    put_number(out, net.sinks.len())?;
    put_numbers(out, net.sinks.as_slice())?;
    put_number(out, listed.len())?;
    put_patterns(out, listed)
}
