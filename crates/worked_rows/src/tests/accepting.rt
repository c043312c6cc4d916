//! Which codes give every block back to their sinks.
ghost use Rattle.node_program.specs.Decoding.{IsAccepted};
ghost use Rattle.test_support.specs.Butterfly.{butterfly, changed_butterfly};

// Both sinks of the butterfly get both rows, whatever they are.
fn butterfly_is_accepted()
    ensures { IsAccepted butterfly }
{}

// With the changed decoder the second sink gets another first row, so the code isn't accepted.
fn changed_butterfly_is_refused()
    ensures { ¬ IsAccepted changed_butterfly }
{}
