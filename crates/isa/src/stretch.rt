// The syllables of one instruction, handed on as their own stretch of the program, without a copy; and the walk from spot to spot.
ghost use Rattle.std.specs.Prelude.{◌≡◌, true, false, ◌+◌, ◌-◌, ◌^◌, ◌≤◌, ◌<◌, length, get_or};
ghost use Rattle.word.specs.Bytes.{words};
ghost use Rattle.word.specs.Choice.{bit};
ghost use Rattle.isa.specs.Syllable.{opens};
ghost use Rattle.isa.specs.Program.{is_start, spots, instruction_at, before_all, next_spot, cluster, operation};

use crate::decode::decode;
use crate::program::following;
use crate::syllable::{ends, opens};
use crate::{Op, Place, Slot, Spot};
use word::number::word_at;

// The stretch of the instruction that starts at a place.
pub fn cut(program: &[u8], at: Place) -> &[u8]
    requires { is_start (words program.now) at.0 ≡ true }
    ensures { spots (words result.now) ≡ instruction_at (words program.now) at.0 }
{
    let a = at.0 * 4;
    let e = following(program, at).0 * 4;
    &program[a..e]
}

pub fn syllable(stretch: &[u8], at: Slot) -> u32
    requires { at.0 < length (words stretch.now) }
    ensures { result ≡ get_or (words stretch.now) at.0 0 }
{
    word_at(stretch, at.0 * 4)
}

// Before the first spot of a walk.
pub fn before_all() -> Spot
    ensures { result ≡ before_all }
{
    Spot {
        first: false,
        last: true,
        opened: 0,
        syllable: 0,
    }
}

// How many clusters are opened with syllable s, after so many in its instruction.
pub fn opened(before: usize, s: u32) -> usize
    requires { before < 2 ^ 63 }
    ensures { result ≡ before + bit (opens s) }
{
    before + opens(s) as usize
}

// The spot of syllable s after the spot x.
pub fn next_spot(x: Spot, s: u32) -> Spot
    requires { x.opened < 2 ^ 63 }
    ensures { result ≡ next_spot x s }
{
    let before = if x.last { 0 } else { x.opened };
    Spot {
        first: x.last,
        last: ends(s),
        opened: opened(before, s),
        syllable: s,
    }
}

// The k-th set bit 30 opens cluster k-1.
pub fn opened_by(k: usize) -> usize
    requires { 0 < k }
    ensures { result ≡ k - 1 }
{
    k - 1
}

// The cluster of a spot, also where none is opened before refusal 5 is tested.
pub fn cluster(x: Spot) -> usize
    ensures { result ≡ cluster x }
{
    if x.opened == 0 {
        0
    } else {
        opened_by(x.opened)
    }
}

// What a spot's syllable asks for.
pub fn operation(x: Spot) -> Op
    requires { x.opened ≤ 4 }
    ensures { result ≡ operation x }
{
    decode(cluster(x) as u32, x.syllable)
}
