// Examples of the promises, and wrong programs that break them. The functions do nothing: the promise of each is the theorem, so that nobody
// drops it unseen.
#![tactic(auto)]

ghost use Rattle.samples.specs.Clusters.{Clusters};
ghost use Rattle.samples.specs.Promise.{Load, Check, Run};

// Loaders that break load's promise.
pub fn load_theorems()
    ensures { Load }
{}

// Checkers that break check's promise, and what the schedule rule says of three programs.
pub fn check_theorems()
    ensures { Check }
{}

// Runs that break run's promise, and document 01's checked values.
pub fn run_theorems()
    ensures { Run }
{}

// A program that demand 3 speaks of, and what its run leaves.
pub fn two_clusters()
    ensures { Clusters }
{}
