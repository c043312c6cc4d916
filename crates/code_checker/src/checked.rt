//! Codes that were checked, and why one was refused.
ghost use Rattle.std.specs.Prelude.{◌≡◌};
ghost use Rattle.node_program.specs.Decoding.{IsAccepted};

use node_program::Code;
use std::marker::Model;

/// An accepted code, which contracts see as the code.
#[derive(Drop)]
pub struct Checked {
    code: Code,
}

impl Model for Checked {
    ghost use Rattle.node_program.specs.Decoding.{IsAccepted};
    ghost use Rattle.node_program.specs.declared.code.Code.{Code};

    ghost Value = { Code };

    ghost view = { λ c. c.code };

    ghost invariant = { λ c. IsAccepted c.code };
}

impl Checked {
    // The code, which is accepted.
    pub(crate) fn of(code: Code) -> Checked
        requires { IsAccepted code }
        ensures { result ≡ code }
    {
        Checked { code }
    }

    /// The code.
    pub fn code(&self) -> &Code
        ensures value { result.now ≡ self.now }
        ensures accepted { IsAccepted result.now }
    {
        &self.code
    }

    /// The code, for other use.
    pub fn into_code(self) -> Code
        ensures value { result ≡ self }
        ensures accepted { IsAccepted result }
    {
        self.code
    }
}

/// A code that was not accepted, handed back.
#[derive(Drop)]
pub struct Refused {
    /// The code.
    pub code: Code,
    /// Why it was refused.
    pub why: CheckRefusal,
}

/// Why a code was not accepted.
#[derive(Clone, Copy, Debug, PartialEq, Eq)]
pub enum CheckRefusal {
    /// A decoder times the vectors of its links isn't the identity.
    NotIdentity {
        /// The first demand of which that holds.
        demand: u32,
        /// The row of the first entry that differs, by rows.
        row: u32,
        /// Its column.
        column: u32,
        /// The number of the element that stands there.
        found: u32,
    },
    /// There was too little memory.
    OutOfMemory,
}
