// What breaks refusals 3 to 8, and the lowest place of each. Loading asks them in the order of their numbers.
#![tactic(auto)]

pub mod control;
pub mod instructions;
pub mod syllables;
