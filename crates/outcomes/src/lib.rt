// Of every public function of every library, the theorem that its promise admits one outcome only. No code runs here.
#![tactic(auto)]

ghost use Rattle.outcomes.specs.Public.{Public};

// The function does nothing: its promise is the theorem, so that nobody drops it unseen.
pub fn one_outcome()
    ensures { Public }
{}
