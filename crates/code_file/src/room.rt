//! How much room the file of a code takes.
ghost use Rattle.std.specs.Prelude.{◌≡◌, []};
ghost use Rattle.code_items.specs.Room.{room_of};
ghost use Rattle.code_items.specs.Sharing.{sames_after};
ghost use Rattle.code_file.specs.Items.{items_in};

use code_items::{decoders_room, draft_room, shared_decoders_room};
use node_program::Code;

/// How much room the file of a code takes, where these are the sames of its demands, or the greatest number of the machine
/// where that is less.
pub(crate) fn code_room(code: &Code, sames: &[u32]) -> usize
    requires { sames.now ≡ sames_after [] code.now.decoders }
    ensures { result ≡ room_of (items_in 2 code.now) }
{
    let decoders = shared_decoders_room(code.field, code.decoders.as_slice(), sames);
    draft_room(code.coding()).saturating_add(decoders)
}

/// The same in version 1.
pub(crate) fn code_room_one(code: &Code) -> usize
    ensures { result ≡ room_of (items_in 1 code.now) }
{
    let decoders = decoders_room(code.field, code.decoders.as_slice());
    draft_room(code.coding()).saturating_add(decoders)
}
