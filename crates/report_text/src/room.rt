//! How much room the lines of a report take.
ghost use Rattle.std.specs.Prelude.{◌≡◌, min, length, sum_by};
ghost use Rattle.report_text.specs.Report.{IsRoomFor, room_of};

use cut_witness::Cert;
use name_texts::NAME_ROOM;
use net_model::LinkList;

/// The first line takes no more room: its word, the digits and the line feed.
pub(crate) const HEAD_ROOM: usize = 26;

// The words of an entry, the digits of its number and its line feeds take no more room.
const WORDS_ROOM: usize = 64;

// The word of a path's line and its line feed.
const PATH_ROOM: usize = 5;

// How many links there are on paths, or the greatest number of the machine where that is less.
fn links_on(paths: &[LinkList]) -> usize
    ensures { result ≡ min (sum_by length paths.now) usize.MAX }
{
    let mut links: usize = 0;
    for path in paths {
        links = links.saturating_add(path.len());
    }
    links
}

/// Room enough for the lines of a certificate: that of so many names, paths and words, or the
/// greatest number of the machine where that is less.
pub(crate) fn entry_room(cert: &Cert) -> usize
    ensures enough { IsRoomFor cert.now result }
    ensures exact { result ≡ room_of cert.now NAME_ROOM PATH_ROOM WORDS_ROOM }
{
    let names = links_on(cert.paths.as_slice())
        .saturating_add(cert.cut.len())
        .saturating_add(cert.side.len())
        .saturating_add(2);
    let paths = cert.paths.len().saturating_mul(PATH_ROOM);
    names
        .saturating_mul(NAME_ROOM)
        .saturating_add(paths)
        .saturating_add(WORDS_ROOM)
}
