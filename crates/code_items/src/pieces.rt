//! The pieces of a code file: numbers, names, elements, and lists of these.
ghost use Rattle.std.specs.Prelude.{◌≡◌, ◌<◌, ◌++◌, drop, map, nat_lt, IsTrue, OnOk};
ghost use Rattle.std.specs.List.{list_all};
ghost use Rattle.gf_tables.specs.Product.{size_of};
ghost use Rattle.code_items.specs.Items.{number_item, long_item, name_item, element_item};
ghost use Rattle.code_items.specs.Written.{Adds};

use byteorder::{BigEndian, ByteOrder};
use gf_tables::{FieldKind, Width};
use net_model::{Name, Net, Pattern};
use std::alloc::AllocError;

/// Adds the two low bytes of a number.
pub(crate) fn put_number(out: &mut Vec<u8>, number: usize) -> Result<(), AllocError>
    ensures { OnOk result (out.new.items ≡ out.old.items ++ number_item number) }
{
    let mut bytes = [0; 8];
    BigEndian::write_u64(&mut bytes, number as u64);
    out.extend_from_slice(&bytes[6..])
}

/// Adds a number in four bytes.
pub(crate) fn put_long(out: &mut Vec<u8>, number: u32) -> Result<(), AllocError>
    ensures { OnOk result (out.new.items ≡ out.old.items ++ long_item number) }
{
    let mut bytes = [0; 4];
    BigEndian::write_u32(&mut bytes, number);
    out.extend_from_slice(&bytes)
}

/// Adds numbers.
pub(crate) fn put_numbers(out: &mut Vec<u8>, numbers: &[u32]) -> Result<(), AllocError>
    ensures { Adds result out.old out.new (map number_item numbers.now) }
{
    for number in numbers {
        put_number(out, *number as usize)?;
    }
    Ok(())
}

/// Adds a name behind its length.
pub(crate) fn put_name(out: &mut Vec<u8>, name: &Name) -> Result<(), AllocError>
    ensures { OnOk result (out.new.items ≡ out.old.items ++ name_item name.now) }
{
    let bytes = name.bytes();
    out.push(bytes.len() as u8)?;
    out.extend_from_slice(bytes)
}

/// Adds names.
pub(crate) fn put_names(out: &mut Vec<u8>, names: &[Name]) -> Result<(), AllocError>
    ensures { Adds result out.old out.new (map name_item names.now) }
{
    for name in names {
        put_name(out, name)?;
    }
    Ok(())
}

/// Adds the number of an element.
pub(crate) fn put_element(
    out: &mut Vec<u8>,
    field: FieldKind,
    element: u32,
) -> Result<(), AllocError>
    requires { element < size_of field }
    ensures { OnOk result (out.new.items ≡ out.old.items ++ element_item field element) }
{
    match field.width() {
        Width::One => Ok(out.push(element as u8)?),
        Width::Two => put_number(out, element as usize),
    }
}

/// Adds the numbers of elements.
pub(crate) fn put_elements(
    out: &mut Vec<u8>,
    field: FieldKind,
    elements: &[u32],
) -> Result<(), AllocError>
    requires { IsTrue (list_all (λ element. nat_lt element (size_of field)) elements.now) }
    ensures { Adds result out.old out.new (map (element_item field) elements.now) }
{
    for element in elements {
        put_element(out, field, *element)?;
    }
    Ok(())
}

/// The patterns behind `none`.
pub(crate) fn listed(net: &Net) -> &[Pattern]
    ensures { result.now ≡ drop 1 net.now.patterns }
{
    match net.patterns.as_slice() {
        [_, listed @ ..] => listed,
        [] => &[],
    }
}
