// The encoding: what a syllable's bits say, how syllables make instructions, and where a control operation goes.
#![tactic(auto)]

pub mod control;
pub mod cuts;
pub mod decode;
pub mod program;
pub mod stretch;
pub mod syllable;
pub mod touch;
pub mod truth;
pub mod walk;

// A syllable's index in the program.
#[derive(Clone, Copy, PartialEq, Eq, PartialOrd, Ord, Default)]
pub struct Place(pub usize);

// A syllable's index in its instruction's stretch.
#[derive(Clone, Copy, PartialEq, Eq, PartialOrd, Ord, Default)]
pub struct Slot(pub usize);

// A count of executed instructions.
#[derive(Clone, Copy, PartialEq, Eq, PartialOrd, Ord, Default)]
pub struct Count(pub u64);

// The form of an opcode: what its fields are.
#[derive(Clone, Copy)]
pub enum Format {
    Still,
    Two,
    One,
    Carry,
    Test,
    Select,
    Load,
    Store,
    Copy,
    Jump,
    Fork,
}

// A syllable as it stands in a program: whether it is its instruction's first, its last, and how many clusters are opened there with it.
#[derive(Clone, Copy)]
pub struct Spot {
    pub first: bool,
    pub last: bool,
    pub opened: usize,
    pub syllable: u32,
}

// The way that a syllable goes: along with the others, nowhere, to a target, there if its branch register holds the wanted value, there with
// the link set to what follows, or to the link.
#[derive(Clone, Copy)]
pub enum Way {
    Along,
    Stop,
    Goto(Place),
    Branch(u32, Place),
    Call(Place),
    Return,
}

// Where an operation sends its instruction, once it runs: it leaves that to the others, it stops, goes to a place, calls there, or goes back
// to the link.
#[derive(Clone, Copy)]
pub enum Turn {
    Onward,
    Stops,
    To(Place),
    Calls(Place),
    Back,
}

// Where an instruction may go on.
#[derive(Clone, Copy)]
pub enum Nexts {
    Nowhere,
    One(Place),
    Two(Place, Place),
}

// A syllable, decoded. Registers by number, where 0 stands for none: s1, s2, b (or a branch's condition) and a store's register are
// read, t and addcg's carry are written. The immediate stands in for s2; the offset is added to s1 for an address.
#[derive(Clone, Copy)]
pub struct Op {
    pub opcode: u32,
    pub s1: u32,
    pub s2: u32,
    pub b: u32,
    pub stored: u32,
    pub immediate: u32,
    pub offset: u32,
    pub t: u32,
    pub carry: u32,
    pub way: Way,
}

// What a syllable writes: registers by number, 0 where there is none.
#[derive(Clone, Copy)]
pub struct Destinations {
    pub t: u32,
    pub carry: u32,
}

// The five delays.
#[derive(Clone, Copy)]
pub struct Delays {
    pub alu: u64,
    pub cmpb: u64,
    pub mul: u64,
    pub load: u64,
    pub copy: u64,
}

// The delay table: of each cluster its width and its count of each class, 0 from C up.
#[derive(Clone, Copy)]
pub struct Table {
    pub clusters: usize,
    pub width: [u8; 4],
    pub alu: [u8; 4],
    pub mul: [u8; 4],
    pub mem: [u8; 4],
    pub copy: [u8; 4],
    pub delays: Delays,
}
