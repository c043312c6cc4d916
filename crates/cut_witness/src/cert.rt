//! Certificates.
use net_model::{Demand, LinkList, Paths, Side};

/// What shows the least cut of a demand.
#[derive(Drop)]
pub struct Cert {
    /// The demand.
    pub demand: Demand,
    /// The size of the least cut, and of the greatest flow.
    pub value: u32,
    /// So many paths that share no link, in rising order of their first links.
    pub paths: Paths,
    /// The least side.
    pub side: Side,
    /// So many links: those that leave the side and haven't failed, in rising order.
    pub cut: LinkList,
}
