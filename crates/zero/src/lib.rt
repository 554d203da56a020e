// Refusal 4: a bit that should be zero is set.
#![tactic(auto)]

ghost use Rattle.std.specs.Prelude.{◌≡◌, ℕ, ◌≤◌};
ghost use Rattle.isa.specs.Syllable.{bits};
ghost use Rattle.zero.specs.Zero.{set, beside_register, bad_bits_as, bad_bits};
ghost use Rattle.zero.specs.Rebuilt.{Rebuilds};

use isa::Format;
use isa::syllable::{bits, format, holds, opcode};

// Whether one of bits hi..lo is set.
fn any(s: u32, hi: u32, lo: u32) -> bool
    requires { (lo ≤ hi) × (hi ≤ 31) }
    ensures { result ≡ set (bits hi lo s) }
{
    bits(s, hi, lo) != 0
}

// Bit 11 is clear, so that s2 is a register, and one of bits 10..6 is set.
fn beside_register(s: u32) -> bool
    ensures { result ≡ beside_register s }
{
    holds(s, 11, 11, 0) && any(s, 10, 6)
}

// Of each form, the bits that are not named.
fn bad_bits_as(f: Format, s: u32) -> bool
    ensures { result ≡ bad_bits_as f s }
{
    match f {
        // Of opcode 0 a call alone has a target.
        Format::Still => 3 < bits(s, 23, 18) || (!holds(s, 23, 18, 2) && any(s, 17, 0)),
        Format::Two => beside_register(s),
        Format::One => any(s, 11, 0),
        Format::Test => any(s, 23, 21) || beside_register(s),
        Format::Select => any(s, 8, 6),
        Format::Copy => any(s, 11, 2),
        Format::Carry | Format::Load | Format::Store | Format::Jump | Format::Fork => false,
    }
}

#[tactic(auto, unfolding(crate::specs::Zero::bad_bits))]
pub fn bad_bits(s: u32) -> bool
    ensures { result ≡ bad_bits s }
{
    bad_bits_as(format(opcode(s)), s)
}

// Refusal 4 and decoding name the same bits. The function does nothing: its promise is the theorem, so that nobody drops it unseen.
pub fn rebuilds()
    ensures { (c s : ℕ) → Rebuilds c s }
{}
