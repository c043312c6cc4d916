//! The lists that networks are made of.
use crate::{Link, Name, Pattern};
use item_list::ItemList;

/// Numbers of links.
pub type LinkList = ItemList<u32>;

/// Lists of links, one for each path.
pub type Paths = ItemList<LinkList>;

/// A truth value for each node.
pub type Side = ItemList<bool>;

/// Names, each at its item's number.
pub type NameList = ItemList<Name>;

/// Links, each at its number.
pub type LinkTable = ItemList<Link>;

/// Numbers of nodes.
pub type NodeList = ItemList<u32>;

/// Patterns, each at its number.
pub type PatternList = ItemList<Pattern>;
