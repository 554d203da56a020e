// The fields of a syllable, by shifts and masks, and what its opcode asks for.
ghost use Rattle.std.specs.Prelude.{◌≡◌, ◌≤◌, eqb};
ghost use Rattle.isa.specs.Syllable.{bits, ends, opens, opcode, source, format_of, is_alu, is_mul, is_mem, is_copy, within};

use crate::Format;

// Bits hi..lo.
pub fn bits(s: u32, hi: u32, lo: u32) -> u32
    requires { (lo ≤ hi) × (hi ≤ 31) }
    ensures { result ≡ bits hi lo s }
{
    (s >> lo) & (0xffff_ffff >> (31 - (hi - lo)))
}

// Whether bits hi..lo are x.
pub fn holds(s: u32, hi: u32, lo: u32, x: u32) -> bool
    requires { (lo ≤ hi) × (hi ≤ 31) }
    ensures { result ≡ eqb (bits hi lo s) x }
{
    bits(s, hi, lo) == x
}

// Bit 31.
pub fn ends(s: u32) -> bool
    ensures { result ≡ ends s }
{
    holds(s, 31, 31, 1)
}

// Bit 30.
pub fn opens(s: u32) -> bool
    ensures { result ≡ opens s }
{
    holds(s, 30, 30, 1)
}

pub fn opcode(s: u32) -> u32
    ensures { result ≡ opcode s }
{
    bits(s, 29, 24)
}

// The cluster that a copy is from.
pub fn source(s: u32) -> u32
    ensures { result ≡ source s }
{
    bits(s, 1, 0)
}

// The form of opcode o.
pub fn format(o: u32) -> Format
    ensures { result ≡ format_of o }
{
    match o {
        0 => Format::Still,
        1..=18 | 24..=39 => Format::Two,
        19..=22 => Format::One,
        23 => Format::Carry,
        40..=49 => Format::Test,
        50..=51 => Format::Select,
        52..=56 => Format::Load,
        57..=59 => Format::Store,
        60 => Format::Copy,
        61 => Format::Jump,
        _ => Format::Fork,
    }
}

// Whether opcode o is one of first..last.
pub fn within(first: u32, last: u32, o: u32) -> bool
    ensures { result ≡ within first last o }
{
    first <= o && o <= last
}

pub fn is_alu(o: u32) -> bool
    ensures { result ≡ is_alu o }
{
    within(1, 51, o) && !within(24, 29, o)
}

pub fn is_mul(o: u32) -> bool
    ensures { result ≡ is_mul o }
{
    within(24, 29, o)
}

pub fn is_mem(o: u32) -> bool
    ensures { result ≡ is_mem o }
{
    within(52, 59, o)
}

pub fn is_copy(o: u32) -> bool
    ensures { result ≡ is_copy o }
{
    o == 60
}
