// The machine: its state, the image of it and validity. What an instruction does is defined here; the crate run has the code.
#![tactic(auto)]

pub mod image;
pub mod valid;

ghost use Rattle.std.specs.Prelude.{◌≡◌, ◌<◌, ℕ, set};
ghost use Rattle.vliw.specs.Cell.{at, still};
ghost use Rattle.machine.specs.State.{cell_of, registers_of, Sized};

use isa::Place;

// A register of the state.
#[derive(Clone, Copy)]
pub struct Cell {
    pub value: u32,
    pub waiting: u32,
    pub busy: u8,
    pub landing: u8,
}

// The place, the link, and the registers of all clusters, general and branch: arrays, since document 01 names them.
#[derive(Drop)]
pub struct State {
    pub place: Place,
    pub link: Place,
    pub value: [u32; 256],
    pub waiting: [u32; 256],
    pub busy: [u8; 256],
    pub landing: [u8; 256],
    pub branch_value: [u32; 32],
    pub branch_waiting: [u32; 32],
    pub branch_busy: [u8; 32],
    pub branch_landing: [u8; 32],
}

impl State {
    // All registers zero.
    pub fn still(place: Place, link: Place) -> State
        ensures sized { Sized result }
        ensures at { (result.place ≡ place) × (result.link ≡ link) }
        ensures registers { (r : ℕ) → r < 288 → at (registers_of result) r ≡ still }
    {
        State {
            place,
            link,
            value: [0; 256],
            waiting: [0; 256],
            busy: [0; 256],
            landing: [0; 256],
            branch_value: [0; 32],
            branch_waiting: [0; 32],
            branch_busy: [0; 32],
            branch_landing: [0; 32],
        }
    }

    // Register r: of the general ones below 256, else of the branch ones.
    pub fn register(&self, r: usize) -> Cell
        requires { r < 288 }
        ensures { cell_of result ≡ at (registers_of self.now) r }
    {
        if r < 256 {
            Cell {
                value: self.value[r],
                waiting: self.waiting[r],
                busy: self.busy[r],
                landing: self.landing[r],
            }
        } else {
            let b = r - 256;
            Cell {
                value: self.branch_value[b],
                waiting: self.branch_waiting[b],
                busy: self.branch_busy[b],
                landing: self.branch_landing[b],
            }
        }
    }

    // Register r, in its place.
    pub fn put(&mut self, r: usize, c: Cell)
        requires { r < 288 }
        ensures sized { Sized self.new }
        ensures at { (self.new.place ≡ self.old.place) × (self.new.link ≡ self.old.link) }
        ensures registers { registers_of self.new ≡ set (registers_of self.old) r (cell_of c) }
    {
        if r < 256 {
            self.value[r] = c.value;
            self.waiting[r] = c.waiting;
            self.busy[r] = c.busy;
            self.landing[r] = c.landing;
        } else {
            let b = r - 256;
            self.branch_value[b] = c.value;
            self.branch_waiting[b] = c.waiting;
            self.branch_busy[b] = c.busy;
            self.branch_landing[b] = c.landing;
        }
    }
}
