// The value of each operation: the table and its laws are in specs/, the laws' proofs in proofs/. No code runs here; the crate ops computes
// the values.
#![tactic(auto)]

ghost use Rattle.meanings.specs.Value.{value, carry, address, loaded, stored};
ghost use Rattle.meanings.specs.Laws.{Laws};
ghost use Rattle.meanings.specs.Settled.{Settled};

// Each row of the table means what its operation's name says. The function does nothing: its promise is the theorem, so that nobody drops it
// unseen.
pub fn laws()
    ensures { Laws value carry address loaded stored }
{}

// Nothing but the table meets the laws. The function does nothing: its promise is the theorem, so that nobody drops it unseen.
pub fn settled()
    ensures { Settled }
{}
