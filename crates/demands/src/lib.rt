// What is proved of the entries' promises: document 01's three demands. The functions do nothing: the promise of each is the theorem, so that
// nobody drops it unseen.
#![tactic(auto)]

ghost use Rattle.demands.specs.Demand1.{Demand1};
ghost use Rattle.demands.specs.Demand2.{Demand2};
ghost use Rattle.demands.specs.Demand3.{Demand3};

// Refusals execute nothing, faults keep what came earlier and are met again, and validity is kept.
pub fn demand_1()
    ensures { Demand1 }
{}

// Load, check and run refuse exactly as document 01 says, with the lowest number and its lowest place.
pub fn demand_2()
    ensures { Demand2 }
{}

// Landings and the order of writes cannot be seen.
pub fn demand_3()
    ensures { Demand3 }
{}
