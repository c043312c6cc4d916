//! The names of nodes and links: letters with numbers.
ghost use Rattle.std.specs.Prelude.{◌≡◌, ◌++◌, ◌-◌, ◌^◌, ◌<◌, IfOk, OnOk, map};
ghost use Rattle.std.specs.List.{range_with_len};
ghost use Rattle.net_model.specs.Name.{IsName};
ghost use Rattle.net_maker.specs.Combination.{numbered, pair_name};
ghost use Rattle.net_maker.specs.Names.{IsLetter};

use itoa::Buffer;
use net_model::{Name, NameFault};
use std::alloc::{AllocError, Global};

/// The name of bytes that are one.
pub(crate) fn name(alloc: Global, bytes: &[u8]) -> Result<Name, AllocError>
    requires { IsName bytes.now }
    ensures { IfOk result (λ name. name ≡ bytes.now) }
{
    match Name::of(alloc, bytes) {
        Ok(name) => Ok(name),
        Err(NameFault::OutOfMemory) => Err(AllocError),
        Err(NameFault::BadName) => unreachable!(),
    }
}

/// A letter and a number.
pub(crate) fn numbered(alloc: Global, letter: u8, number: u32) -> Result<Name, AllocError>
    requires { IsLetter letter }
    ensures { IfOk result (λ name. name ≡ numbered letter number) }
{
    let mut digits = Buffer::new();
    let mut text = vec![in alloc; letter]?;
    text.extend_from_slice(digits.format(number).as_bytes())?;
    name(alloc, &text)
}

/// The name of a link into a sink.
pub(crate) fn pair_name(alloc: Global, sink: u32, middle: u32) -> Result<Name, AllocError>
    ensures { IfOk result (λ name. name ≡ pair_name sink middle) }
{
    let mut digits = Buffer::new();
    let mut text = vec![in alloc; b'b']?;
    text.extend_from_slice(digits.format(sink).as_bytes())?;
    text.push(b'-')?;
    text.extend_from_slice(digits.format(middle).as_bytes())?;
    name(alloc, &text)
}

/// Adds a letter with each number from 1 on.
pub(crate) fn push_numbered(
    alloc: Global,
    names: &mut Vec<Name>,
    letter: u8,
    count: u32,
) -> Result<(), AllocError>
    requires letter { IsLetter letter }
    requires count { count < 2 ^ 32 - 1 }
    ensures { OnOk result (names.new.items
        ≡ names.old.items ++ map (numbered letter) (range_with_len 1 count)) }
{
    for before in 0..count {
        names.push(numbered(alloc, letter, before + 1)?)?;
    }
    Ok(())
}
