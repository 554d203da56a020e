// The operations' values: one function for each, and a dispatch by opcode over them.
#![tactic(auto)]

ghost use Rattle.std.specs.Prelude.{◌≡◌};
ghost use Rattle.ops.specs.Value.{value};

mod compare;
mod logic;
mod memory;
mod multiply;
mod select;
mod shift;
mod sum;

pub use memory::{address, loaded, stored};
pub use sum::carry;
use word::field::{low, widen};

// The value of the operation `opcode` for s1, s2 and the branch register b; 0 where the opcode has none.
pub fn value(opcode: u32, s1: u32, s2: u32, b: u32) -> u32
    ensures { result ≡ value opcode s1 s2 b }
{
    // by number: an opcode is a field of the syllable, and the table's rows go by it
    match opcode {
        1 => sum::add(s1, s2),
        2 => sum::sub(s1, s2),
        3 => logic::and(s1, s2),
        4 => logic::andc(s1, s2),
        5 => logic::or(s1, s2),
        6 => logic::orc(s1, s2),
        7 => logic::xor(s1, s2),
        8 => shift::shl(s1, s2),
        9 => shift::shr(s1, s2),
        10 => shift::shru(s1, s2),
        11 => sum::shift_add::<1>(s1, s2),
        12 => sum::shift_add::<2>(s1, s2),
        13 => sum::shift_add::<3>(s1, s2),
        14 => sum::shift_add::<4>(s1, s2),
        15 => compare::max(s1, s2),
        16 => compare::maxu(s1, s2),
        17 => compare::min(s1, s2),
        18 => compare::minu(s1, s2),
        19 => widen::<8>(s1),
        20 => widen::<16>(s1),
        21 => low::<8>(s1),
        22 => low::<16>(s1),
        23 => sum::addcg(s1, s2, b),
        24 => multiply::mpyll(s1, s2),
        25 => multiply::mpyllu(s1, s2),
        26 => multiply::mpylh(s1, s2),
        27 => multiply::mpylhu(s1, s2),
        28 => multiply::mpyhh(s1, s2),
        29 => multiply::mpyhhu(s1, s2),
        30 | 40 => compare::cmpeq(s1, s2),
        31 | 41 => compare::cmpne(s1, s2),
        32 | 42 => compare::cmplt(s1, s2),
        33 | 43 => compare::cmple(s1, s2),
        34 | 44 => compare::cmpgt(s1, s2),
        35 | 45 => compare::cmpge(s1, s2),
        36 | 46 => compare::cmpltu(s1, s2),
        37 | 47 => compare::cmpleu(s1, s2),
        38 | 48 => compare::cmpgtu(s1, s2),
        39 | 49 => compare::cmpgeu(s1, s2),
        50 => select::slct(s1, s2, b),
        51 => select::slctf(s1, s2, b),
        _ => 0,
    }
}
