//! Why a network isn't compiled.
use net_model::{LinkList, Side};
use std::alloc::AllocError;
use topo_order::OrderRefusal;

/// Why a network isn't compiled.
#[derive(Drop)]
pub enum CompileRefusal {
    /// The network has a cycle.
    Cyclic {
        /// A cycle that passes no node twice and begins with its least link.
        links: LinkList,
    },
    /// The network has more demands than the field has elements.
    TooManyDemands {
        /// How many it has.
        count: u64,
    },
    /// The rate of the network is 0.
    ZeroRate {
        /// The first demand whose least cut is 0.
        demand: u32,
        /// Its least side, which only failed links leave.
        side: Side,
    },
    /// The wanted rate is above the rate of the network, which isn't 0.
    RateUnmet {
        /// The first demand whose least cut is below the wanted rate.
        demand: u32,
        /// Its least side.
        side: Side,
        /// The size of that cut.
        least: u32,
    },
    /// The rate of the network is above 32, and none is wanted.
    RateOver {
        /// The first demand whose least cut is the rate.
        demand: u32,
        /// The size of that cut.
        least: u32,
    },
    /// There was too little memory.
    OutOfMemory,
}

impl From<AllocError> for CompileRefusal {
    ghost use Rattle.std.specs.Prelude.{◌≡◌};
    ghost use Rattle.lif_compiler.specs.declared.refusal.CompileRefusal.TheVariants.{OutOfMemory};

    ghost from_gives = { λ _ refusal. refusal ≡ OutOfMemory };

    fn from(_: AllocError) -> CompileRefusal {
        CompileRefusal::OutOfMemory
    }
}

impl From<OrderRefusal> for CompileRefusal {
    ghost use Rattle.std.specs.Prelude.{◌≡◌};
    ghost use Rattle.lif_compiler.specs.Refused.{of_order};

    ghost from_gives = { λ refusal made. made ≡ of_order refusal };

    fn from(refusal: OrderRefusal) -> CompileRefusal {
        match refusal {
            OrderRefusal::Cyclic { links } => CompileRefusal::Cyclic { links },
            OrderRefusal::OutOfMemory => CompileRefusal::OutOfMemory,
        }
    }
}
