// Where a control syllable goes, said once for loading, checking and running.
ghost use Rattle.std.specs.Prelude.{◌≡◌, true, List, map, ℕ, ◌≤◌};
ghost use Rattle.word.specs.Bytes.{words};
ghost use Rattle.isa.specs.Syllable.{opcode};
ghost use Rattle.isa.specs.Control.{way_of, controls, is_control, target_of, solitary, leaves, reads_every, turn_of};
ghost use Rattle.isa.specs.Program.{spots, operation};
ghost use Rattle.isa.specs.Touch.{nexts_by, nexts, listed};

use crate::syllable::{bits, opcode};
use crate::walk::spots;
use crate::{Nexts, Place, Turn, Way};

// Opcode 0: nop, stop, call or return.
pub fn still(s: u32) -> Way
    requires { opcode s ≡ 0 }
    ensures { result ≡ way_of s }
{
    match bits(s, 23, 18) {
        1 => Way::Stop,
        2 => Way::Call(Place(bits(s, 17, 0) as usize)),
        3 => Way::Return,
        _ => Way::Along,
    }
}

// Opcode 61: goto has more bits for its target than br and brf.
pub fn goto(s: u32) -> Way
    requires { opcode s ≡ 61 }
    ensures { result ≡ way_of s }
{
    Way::Goto(Place(bits(s, 23, 0) as usize))
}

// Opcodes 62 and 63: br is taken on 1, brf on 0.
pub fn fork(s: u32) -> Way
    requires { 62 ≤ opcode s }
    ensures { result ≡ way_of s }
{
    Way::Branch(63 - opcode(s), Place(bits(s, 20, 0) as usize))
}

// The way that syllable s goes.
pub fn way(s: u32) -> Way
    ensures { result ≡ way_of s }
{
    match opcode(s) {
        0 => still(s),
        1..=60 => Way::Along,
        61 => goto(s),
        _ => fork(s),
    }
}

// Control is every way but along.
pub fn controls(w: Way) -> bool
    ensures { result ≡ controls w }
{
    !matches!(w, Way::Along)
}

pub fn is_control(s: u32) -> bool
    ensures { result ≡ is_control s }
{
    controls(way(s))
}

pub fn target(w: Way) -> Option<Place>
    ensures { result ≡ target_of w }
{
    match w {
        Way::Goto(t) | Way::Branch(_, t) | Way::Call(t) => Some(t),
        Way::Along | Way::Stop | Way::Return => None,
    }
}

// Whether it has no company.
pub fn solitary(w: Way) -> bool
    ensures { result ≡ solitary w }
{
    matches!(w, Way::Stop | Way::Return)
}

// Whether it never leads on to the following instruction; after a call its return does.
pub fn leaves(w: Way) -> bool
    ensures { result ≡ leaves w }
{
    matches!(w, Way::Stop | Way::Goto(_) | Way::Return)
}

// Whether its instruction counts as one that reads every register.
pub fn reads_every(w: Way) -> bool
    ensures { result ≡ reads_every w }
{
    matches!(w, Way::Call(_) | Way::Return)
}

// Where it sends the instruction that j follows, with b in its branch register.
pub fn turn(w: Way, b: u32, j: Place) -> Turn
    ensures { result ≡ turn_of w b j }
{
    match w {
        Way::Along => Turn::Onward,
        Way::Stop => Turn::Stops,
        Way::Goto(t) => Turn::To(t),
        Way::Branch(wanted, t) => Turn::To(if b == wanted { t } else { j }),
        Way::Call(t) => Turn::Calls(t),
        Way::Return => Turn::Back,
    }
}

// The nexts of an instruction that j follows, by its control operation.
fn nexts_by(w: Way, j: Place) -> Nexts
    requires { controls w ≡ true }
    ensures { (others : List ℕ) → listed result ≡ nexts_by w j.0 others }
{
    match w {
        Way::Goto(t) | Way::Call(t) => Nexts::One(t),
        Way::Branch(_, t) => Nexts::Two(t, j),
        Way::Along | Way::Stop | Way::Return => Nexts::Nowhere,
    }
}

// The nexts of the instruction of this stretch, which j follows.
pub fn nexts(stretch: &[u8], j: Place) -> Nexts
    ensures { listed result ≡ nexts j.0 (map operation (spots (words stretch.now))) }
{
    for x in spots(stretch) {
        let w = way(x.syllable);
        if controls(w) {
            return nexts_by(w, j);
        }
    }
    Nexts::One(j)
}
