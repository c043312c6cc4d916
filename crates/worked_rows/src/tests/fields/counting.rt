//! A counter of steps for each example, which goes on without it.
ghost use Rattle.std.specs.Prelude.{◌≡◌, ◌<◌};

use counted_steps::Steps;
use gf_tables::Field;
use std::alloc::Global;
use std::marker::Brand;
use std::sync::ledger::{Blank, Ledger};

/// An example over any field, whose calls count their steps.
pub(super) trait Counted {
    /// What comes of it.
    type Found;

    /// Runs it, with a counter at which no step was counted.
    fn run<F: Field, L: Ledger>(self, alloc: Global, steps: Steps<L>) -> Self::Found
        requires { steps ≡ 0 };
}

// Runs an example with the counter of a blank.
fn run_from<F: Field, E: Counted, L: Ledger>(alloc: Global, example: E, blank: Blank) -> E::Found
    requires name { blank.name ≡ L.name }
    requires parts { blank.parts ≡ L.parts }
    requires some_part { 0 < blank.parts }
{
    example.run::<F, L>(alloc, Steps::<L>::start(blank))
}

/// What comes of an example over a field.
pub(super) fn run_over<F: Field, E: Counted>(alloc: Global, example: E) -> E::Found {
    run_from::<F, E, Brand>(alloc, example, Blank::new(1))
}
