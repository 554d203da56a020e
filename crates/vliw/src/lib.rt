// The abstract machine: its definitions are in specs/, its theorem in proofs/Demand3.antt. No code runs here.
#![tactic(auto)]

ghost use Rattle.std.specs.Prelude.{List, ℕ};
ghost use Rattle.vliw.specs.Demand3.{AnyDemand3};

// What an instruction may fault with, in the order of the customer's numbers.
#[derive(Clone, Copy)]
pub enum Fault {
    InFlight,
    Misaligned,
    OutOfBounds,
    StoresClash,
    BadLink,
}

// How a run ends. `number_of` of specs/Run.antt gives the customer's number of each.
#[derive(Clone, Copy)]
pub enum Ending {
    Paused,
    Stopped,
    Faulted(Fault),
}

// Demand 3 of any machine. The function does nothing: its promise is the theorem, so that nobody drops it unseen. A promise speaks of one
// memory and one kind of store, here lists of numbers; the proof is for all.
pub fn demand_3()
    ensures { AnyDemand3 (List ℕ) (List ℕ) }
{}
