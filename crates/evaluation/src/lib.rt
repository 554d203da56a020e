// The values of expressions in a text, and the syllables that they fill.
#![tactic(auto)]

pub mod labels; // labels.rt: where a label is given, by the table and the search
mod readers; // readers.rt: expression, term and factor, which call each other
pub mod syllables; // syllables.rt: an operation's syllable
