//! Links in memory.
ghost use Rattle.std.specs.Prelude.{◌+◌, ◌≤◌, length};

mod listed;
mod seeded;

use lif_outside::Links;

// Puts a frame on a link where there is room, and says whether it was put.
fn launch<L: Links>(links: &mut L, free: &mut u32, link: u8) -> bool
    requires { length (L.flying links.old) + free.old ≤ L.room links.old }
    ensures { length (L.flying links.new) + free.new ≤ L.room links.new }
{
    if *free == 0 {
        return false;
    }
    match links.put(u32::from(link), &[link; 140]) {
        Ok(()) => {
            *free -= 1;
            true
        }
        Err(_) => false,
    }
}

// The first row of numbers of links for which it isn't so that a frame is put there, or that none is.
fn wrong_put<L: Links>(links: &mut L, room: u32, puts: &[(u8, bool)]) -> Option<usize>
    requires { length (L.flying links.old) + room ≤ L.room links.old }
    ensures { length (L.flying links.new) ≤ L.room links.new }
{
    let mut free = room;
    for (row, &(link, is_put)) in puts.iter().enumerate() {
        if launch(links, &mut free, link) != is_put {
            return Some(row);
        }
    }
    None
}

// How many pairs are given by so many takes, until one gives none.
fn landed<L: Links>(links: &mut L, takes: usize) -> usize {
    for count in 0..takes {
        match links.take() {
            Ok(Some(_)) => {}
            _ => return count,
        }
    }
    takes
}
