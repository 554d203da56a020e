// Opcodes 24 to 29: 16-bit halves, the first letter for s1, signed unless u.
// Six of one line: one function for the three pairs of halves would take the pair as shifts, 0 and 16, and lose the names.
ghost use Rattle.std.specs.Prelude.{◌≡◌, ◌*◌, ◌^◌, ◌<◌};
ghost use Rattle.meanings.specs.Value.{row};

use word::field::{low, widen};

// The product of two halves, which has at most 32 bits.
fn whole(x: u32, y: u32) -> u32
    requires { (x < 2 ^ 16) × (y < 2 ^ 16) }
    ensures { result ≡ x * y }
{
    x * y
}

pub fn mpyll(s1: u32, s2: u32) -> u32
    ensures { result ≡ row 24 s1 s2 0 }
{
    widen::<16>(s1).wrapping_mul(widen::<16>(s2))
}

pub fn mpyllu(s1: u32, s2: u32) -> u32
    ensures { result ≡ row 25 s1 s2 0 }
{
    whole(low::<16>(s1), low::<16>(s2))
}

pub fn mpylh(s1: u32, s2: u32) -> u32
    ensures { result ≡ row 26 s1 s2 0 }
{
    widen::<16>(s1).wrapping_mul(widen::<16>(s2 >> 16))
}

pub fn mpylhu(s1: u32, s2: u32) -> u32
    ensures { result ≡ row 27 s1 s2 0 }
{
    whole(low::<16>(s1), s2 >> 16)
}

pub fn mpyhh(s1: u32, s2: u32) -> u32
    ensures { result ≡ row 28 s1 s2 0 }
{
    widen::<16>(s1 >> 16).wrapping_mul(widen::<16>(s2 >> 16))
}

pub fn mpyhhu(s1: u32, s2: u32) -> u32
    ensures { result ≡ row 29 s1 s2 0 }
{
    whole(s1 >> 16, s2 >> 16)
}
