// Opcodes 8 to 10: s1 by the low five bits of s2.
ghost use Rattle.std.specs.Prelude.{◌≡◌};
ghost use Rattle.meanings.specs.Value.{row};

pub fn shl(s1: u32, s2: u32) -> u32
    ensures { result ≡ row 8 s1 s2 0 }
{
    s1.wrapping_shl(s2)
}

pub fn shr(s1: u32, s2: u32) -> u32
    ensures { result ≡ row 9 s1 s2 0 }
{
    (s1.cast_signed() >> (s2 % 32)).cast_unsigned()
}

pub fn shru(s1: u32, s2: u32) -> u32
    ensures { result ≡ row 10 s1 s2 0 }
{
    s1.wrapping_shr(s2)
}
