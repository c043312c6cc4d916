//! The names of the nodes and of the links of a text.
ghost use Rattle.std.specs.Prelude.{◌≡◌, [], IfOk};
ghost use Rattle.net_model.specs.Name.{IsName};
ghost use Rattle.net_reader.specs.State.{AreTables};
ghost use Rattle.net_reader.specs.Words.{IsLinkName, IsNodeName};

use crate::ReadRefusal;
use crate::reading::read_text;
use crate::state::State;
use net_model::{Name, NameFault};
use std::alloc::{AllocError, Global};

// A copy of a name.
fn copied(alloc: Global, name: &[u8]) -> Result<Name, AllocError>
    requires { IsName name.now }
    ensures { IfOk result (λ copy. copy ≡ name.now) }
{
    match Name::of(alloc, name) {
        Ok(copy) => Ok(copy),
        Err(NameFault::OutOfMemory) => Err(AllocError),
        Err(NameFault::BadName) => unreachable!(),
    }
}

// The name of the node of a number in a text, which is the first that the state reads.
fn node_name_in<'a>(
    alloc: Global,
    state: &mut State<'a>,
    text: &'a [u8],
    node: u32,
) -> Result<Option<Name>, AllocError>
    requires { AreTables [] state.old }
    ensures { IfOk result (IsNodeName text.now node) }
{
    match read_text(alloc, state, text) {
        Ok(()) => match state.nodes.get(node as usize) {
            Some(name) => Ok(Some(copied(alloc, name)?)),
            None => Ok(None),
        },
        Err(ReadRefusal::OutOfMemory) => Err(AllocError),
        Err(_) => Ok(None),
    }
}

/// The name of the node of a number in a text, where each of its lines is good and it has so many nodes.
pub fn node_name(alloc: Global, text: &[u8], node: u32) -> Result<Option<Name>, AllocError>
    ensures { IfOk result (IsNodeName text.now node) }
{
    let mut state = State::new(alloc);
    node_name_in(alloc, &mut state, text, node)
}

// The name of the link of a number in a text, which is the first that the state reads.
fn link_name_in<'a>(
    alloc: Global,
    state: &mut State<'a>,
    text: &'a [u8],
    link: u32,
) -> Result<Option<Name>, AllocError>
    requires { AreTables [] state.old }
    ensures { IfOk result (IsLinkName text.now link) }
{
    match read_text(alloc, state, text) {
        Ok(()) => match state.link_names.get(link as usize) {
            Some(name) => Ok(Some(copied(alloc, name)?)),
            None => Ok(None),
        },
        Err(ReadRefusal::OutOfMemory) => Err(AllocError),
        Err(_) => Ok(None),
    }
}

/// The name of the link of a number in a text, where each of its lines is good and it has so many links. A bundle's
/// links have names that don't stand in the text.
pub fn link_name(alloc: Global, text: &[u8], link: u32) -> Result<Option<Name>, AllocError>
    ensures { IfOk result (IsLinkName text.now link) }
{
    let mut state = State::new(alloc);
    link_name_in(alloc, &mut state, text, link)
}
