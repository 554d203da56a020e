// The text program's input: lines of hexadecimal, read up to the first that is bad.
#![tactic(auto)]

mod items;
pub mod reading;
