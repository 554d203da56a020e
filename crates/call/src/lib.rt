// A call of run: what it replies. What it comes to, and all that it leaves, is defined in specs/Run.antt.
#![tactic(auto)]

ghost use Rattle.std.specs.Prelude.{◌≡◌};
ghost use Rattle.call.specs.declared.Unrun.TheVariants.{Refused};

mod replies;

use isa::{Count, Place};
use loader::Refusal;
use vliw::Ending;

// How a run ended, after how many instructions and where.
#[derive(Clone, Copy)]
pub struct Ended {
    pub ending: Ending,
    pub count: Count,
    pub place: Place,
}

// Why nothing is run: what stands against loading, or a state that is not valid.
#[derive(Clone, Copy)]
pub enum Unrun {
    Refused(Refusal),
    BadState,
}

impl From<Refusal> for Unrun {
    ghost from_gives = { λ r u. u ≡ Refused r };

    fn from(r: Refusal) -> Unrun {
        Unrun::Refused(r)
    }
}
