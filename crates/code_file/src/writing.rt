//! Writing a code file.
ghost use Rattle.std.specs.Prelude.{◌≡◌, ◌≢◌, IfOk};
ghost use Rattle.gf_tables.specs.declared.kind.FieldKind.TheVariants.{Nine};
ghost use Rattle.code_file.specs.Items.{bytes_in, bytes_of};

use crate::reading::MARK;
use crate::room::{code_room, code_room_one};
use code_items::{put_decoders, put_draft_parts, put_shared_decoders, sames_of};
use node_program::Code;
use std::alloc::{AllocError, Global};

/// The code file of a code, in version 2. Its room is taken once.
#[tactic(auto, unfolding(crate::specs::Items::items_in, crate::specs::Items::bytes_in))]
pub fn write_code(alloc: Global, code: &Code) -> Result<Vec<u8>, AllocError>
    ensures { IfOk result (λ bytes. bytes.items ≡ bytes_of code.now) }
{
    let decoders = code.decoders.as_slice();
    let sames = sames_of(alloc, code.field, code.rate, decoders)?;
    let mut out = Vec::with_capacity(alloc, code_room(code, &sames))?;
    put_draft_parts(&mut out, MARK, 2, code.coding())?;
    put_shared_decoders(&mut out, code.field, decoders, &sames)?;
    Ok(out)
}

/// The code file of a code in version 1, for the fields that a network can name. Its room is taken once.
#[tactic(auto, unfolding(crate::specs::Items::items_in, crate::specs::Items::bytes_in))]
pub fn write_code_one(alloc: Global, code: &Code) -> Result<Vec<u8>, AllocError>
    requires { code.now.field ≢ Nine }
    ensures { IfOk result (λ bytes. bytes.items ≡ bytes_in 1 code.now) }
{
    let mut out = Vec::with_capacity(alloc, code_room_one(code))?;
    put_draft_parts(&mut out, MARK, 1, code.coding())?;
    put_decoders(&mut out, code.field, code.decoders.as_slice())?;
    Ok(out)
}
