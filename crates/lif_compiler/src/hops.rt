//! The hops of demands' paths over a link.
use item_list::ItemList;

/// A link on a path of a demand, by what comes before it there.
#[derive(Clone, Copy, Debug, PartialEq, Eq)]
pub struct Hop {
    /// The number of the demand.
    pub demand: u32,
    /// The number of the path.
    pub path: u32,
    /// The link before it on the path, or where it is the first, the number of the path.
    pub before: u32,
}

/// The hops over a link.
pub type HopList = ItemList<Hop>;
