//! Why links have no order.
use net_model::LinkList;
use std::alloc::AllocError;

/// Why links have no order.
#[derive(Drop)]
pub enum OrderRefusal {
    /// The network has a cycle.
    Cyclic {
        /// A cycle that passes no node twice and begins with its least link.
        links: LinkList,
    },
    /// There was too little memory.
    OutOfMemory,
}

impl From<AllocError> for OrderRefusal {
    ghost use Rattle.std.specs.Prelude.{◌≡◌};
    ghost use Rattle.topo_order.specs.declared.refusal.OrderRefusal.TheVariants.{OutOfMemory};

    ghost from_gives = { λ _ refusal. refusal ≡ OutOfMemory };

    fn from(_: AllocError) -> OrderRefusal {
        OrderRefusal::OutOfMemory
    }
}
