//! What the compiler's definitions give on routes and operands.
ghost use Rattle.std.specs.Prelude.{◌≡◌, [], ◌∷◌};
ghost use Rattle.lif_compiler.specs.Operands.{operands_of};
ghost use Rattle.lif_compiler.specs.Routes.{routes_of_certs};
ghost use Rattle.worked_runs.specs.Butterfly.{butterfly_certs, butterfly_order, butterfly_routes};

/// The routes of the butterfly have the new numbers of its links.
pub fn butterfly_is_routed()
    ensures { routes_of_certs butterfly_order 2 butterfly_certs ≡ butterfly_routes }
{}

/// A source whose coefficient is zero is no operand.
pub fn zero_coefficients_are_left_out()
    ensures { operands_of (2 ∷ 4 ∷ 7 ∷ []) (5 ∷ 0 ∷ 1 ∷ [])
        ≡ record { from = 2; times = 5 } ∷ record { from = 7; times = 1 } ∷ [] }
{}
