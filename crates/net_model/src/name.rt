//! Names of nodes, links and patterns.
ghost use Rattle.std.specs.Prelude.{◌≡◌, ◌↔◌, IfOk, IsErrOf};
ghost use Rattle.std.specs.List.{list_all};
ghost use Rattle.net_model.specs.Name.{IsName, is_name, is_name_byte};

use crate::LONGEST_NAME;
use std::alloc::{AllocError, Global};
use std::marker::Model;

/// 1 to 32 bytes, each a letter of ASCII, a digit, `_`, `-` or `.`.
#[derive(Drop)]
pub struct Name {
    bytes: Vec<u8>,
}

/// Why bytes are not made a name.
#[derive(Clone, Copy, Debug, PartialEq, Eq)]
pub enum NameFault {
    /// They aren't a name.
    BadName,
    /// There is no memory to keep them.
    OutOfMemory,
}

impl Model for Name {
    ghost use Rattle.std.specs.Prelude.{List, ℕ};
    ghost use Rattle.std.specs.List.{list_all};
    ghost use Rattle.net_model.specs.Name.{IsName};

    ghost Value = { List ℕ };

    ghost view = { λ name. name.bytes.items };

    ghost invariant = { λ name. IsName name.bytes.items };
}

impl Name {
    /// The name of these bytes. `BadName` comes exactly where they aren't a name.
    pub fn of(alloc: Global, bytes: &[u8]) -> Result<Name, NameFault>
        ensures name { IfOk result (λ name. name ≡ bytes.now) }
        ensures valid { IfOk result (λ name. IsName bytes.now) }
        ensures refused { IsErrOf result NameFault.BadName ↔ ¬ IsName bytes.now }
    {
        if !is_name(bytes) {
            return Err(NameFault::BadName);
        }
        match Vec::from_slice(alloc, bytes) {
            Ok(bytes) => Ok(Name { bytes }),
            Err(AllocError) => Err(NameFault::OutOfMemory),
        }
    }

    // The same name.
    pub(crate) fn copy(&self, alloc: Global) -> Result<Name, AllocError>
        ensures { IfOk result (λ copy. copy ≡ self.now) }
    {
        let bytes = Vec::from_slice(alloc, self.bytes.as_slice())?;
        Ok(Name { bytes })
    }

    /// The bytes of the name.
    pub fn bytes(&self) -> &[u8]
        ensures value { result.now ≡ self.now }
        ensures valid { IsName self.now }
    {
        self.bytes.as_slice()
    }
}

/// Whether the bytes are a name.
pub fn is_name(bytes: &[u8]) -> bool
    ensures { result ≡ is_name bytes.now }
{
    (1..=LONGEST_NAME).contains(&bytes.len()) && are_name_bytes(bytes)
}

fn are_name_bytes(bytes: &[u8]) -> bool
    ensures { result ≡ list_all is_name_byte bytes.now }
{
    bytes.iter().all(|b| is_name_byte(*b))
}

fn is_name_byte(byte: u8) -> bool
    ensures { result ≡ is_name_byte byte }
{
    byte.is_ascii_alphanumeric() || byte == b'_' || byte == b'-' || byte == b'.'
}
