//! Codes that are read and checked.
ghost use Rattle.std.specs.Prelude.{◌≡◌, ◌≢◌, ℕ, List};
ghost use Rattle.code_checker.specs.Checking.{IsRefusal};
ghost use Rattle.code_file.specs.Items.{IsFileOf};
ghost use Rattle.code_file.specs.Reading.{contents_of};
ghost use Rattle.code_items.specs.Gives.{Fails};
ghost use Rattle.node_program.specs.Decoding.{IsAccepted};
ghost use Rattle.node_program.specs.declared.code.Code.{Code};
ghost use Rattle.open_nodes.specs.Opening.{IsOpenRefusal, OpensCode};

use code_checker::{CheckRefusal, Checked, check_alone};
use code_file::{CODE_LIMIT, CodeRefusal, read_code};
use node_program::Code;
use std::alloc::Global;

/// Why bytes weren't opened as a code.
#[derive(Clone, Copy, Debug, PartialEq, Eq)]
pub enum OpenRefusal {
    /// They are more than a code file may have.
    TooLong,
    /// They aren't a code file, by the first item that isn't good.
    BadCode(CodeRefusal),
    /// A decoder times the vectors of its links isn't the identity.
    NotDecoding {
        /// The first demand of which that holds.
        demand: u32,
        /// The row of the first entry that differs, by rows.
        row: u32,
        /// Its column.
        column: u32,
        /// The number of the element that stands there.
        found: u32,
    },
    /// There was too little memory.
    OutOfMemory,
}

/// Reads the bytes of a code file, and checks the code, on the thread of the call.
pub fn open_code(alloc: Global, bytes: &[u8]) -> Result<Checked, OpenRefusal>
    ensures { OpensCode bytes.now result }
{
    if bytes.len() > CODE_LIMIT {
        return Err(OpenRefusal::TooLong);
    }
    match read_code(alloc, bytes) {
        Ok(code) => accept(alloc, code),
        Err(why) => Err(unread(why)),
    }
}

// Why bytes weren't read.
fn unread(why: CodeRefusal) -> OpenRefusal
    ensures { (bytes : List ℕ) → Fails why (contents_of bytes)
        → ((code : Code) → IsFileOf bytes code → why ≡ CodeRefusal.OutOfMemory)
        → IsOpenRefusal bytes result }
{
    match why {
        CodeRefusal::OutOfMemory => OpenRefusal::OutOfMemory,
        _ => OpenRefusal::BadCode(why),
    }
}

// Checks a code that was read.
fn accept(alloc: Global, code: Code) -> Result<Checked, OpenRefusal>
    ensures { (bytes : List ℕ) → IsFileOf bytes code → OpensCode bytes result }
{
    match check_alone(alloc, code) {
        Ok(checked) => Ok(checked),
        Err(refused) => Err(unaccepted(refused.why)),
    }
}

// Why a code wasn't accepted.
fn unaccepted(why: CheckRefusal) -> OpenRefusal
    ensures { (bytes : List ℕ) (code : Code) → IsFileOf bytes code → IsRefusal code why
        → (why ≢ CheckRefusal.OutOfMemory → IsAccepted code → ⊥) → IsOpenRefusal bytes result }
{
    match why {
        CheckRefusal::NotIdentity {
            demand,
            row,
            column,
            found,
        } => OpenRefusal::NotDecoding {
            demand,
            row,
            column,
            found,
        },
        CheckRefusal::OutOfMemory => OpenRefusal::OutOfMemory,
    }
}
