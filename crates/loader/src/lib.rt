// Loading: every program is taken, or refused with its number and place.
#![tactic(auto)]

pub mod answers;
mod numbers;

use isa::Place;
pub use numbers::{bad_program_length, load, load_with};

// What stands against loading, with its place where document 01 gives one.
#[derive(Clone, Copy)]
pub enum Refusal {
    BadTable,
    ProgramLength,
    MemoryLength,
    StateLength,
    RoomLength,
    NoEnd(Place),
    BadBits(Place),
    BadCluster(Place),
    TooWide(Place),
    TwoWrites(Place),
    BadControl(Place),
}

// What a call answers: the paper's number, the executed count and a place.
#[derive(Clone, Copy)]
pub struct Answer {
    pub number: u32,
    pub count: u64,
    pub place: u64,
}
