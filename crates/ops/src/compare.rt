// Opcodes 15 to 18 and 30 to 49: the larger, the smaller and the ten comparisons, 1 or 0.
ghost use Rattle.std.specs.Prelude.{◌≡◌};
ghost use Rattle.meanings.specs.Value.{row};
ghost use Rattle.meanings.specs.Arith.{below};

// Less as signed numbers.
pub fn below(x: u32, y: u32) -> bool
    ensures { result ≡ below x y }
{
    x.cast_signed() < y.cast_signed()
}

pub fn max(s1: u32, s2: u32) -> u32
    ensures { result ≡ row 15 s1 s2 0 }
{
    if below(s1, s2) { s2 } else { s1 }
}

pub fn maxu(s1: u32, s2: u32) -> u32
    ensures { result ≡ row 16 s1 s2 0 }
{
    s1.max(s2)
}

pub fn min(s1: u32, s2: u32) -> u32
    ensures { result ≡ row 17 s1 s2 0 }
{
    if below(s1, s2) { s1 } else { s2 }
}

pub fn minu(s1: u32, s2: u32) -> u32
    ensures { result ≡ row 18 s1 s2 0 }
{
    s1.min(s2)
}

pub fn cmpeq(s1: u32, s2: u32) -> u32
    ensures { result ≡ row 30 s1 s2 0 }
{
    u32::from(s1 == s2)
}

pub fn cmpne(s1: u32, s2: u32) -> u32
    ensures { result ≡ row 31 s1 s2 0 }
{
    u32::from(s1 != s2)
}

pub fn cmplt(s1: u32, s2: u32) -> u32
    ensures { result ≡ row 32 s1 s2 0 }
{
    u32::from(below(s1, s2))
}

pub fn cmple(s1: u32, s2: u32) -> u32
    ensures { result ≡ row 33 s1 s2 0 }
{
    u32::from(!below(s2, s1))
}

pub fn cmpgt(s1: u32, s2: u32) -> u32
    ensures { result ≡ row 34 s1 s2 0 }
{
    u32::from(below(s2, s1))
}

pub fn cmpge(s1: u32, s2: u32) -> u32
    ensures { result ≡ row 35 s1 s2 0 }
{
    u32::from(!below(s1, s2))
}

pub fn cmpltu(s1: u32, s2: u32) -> u32
    ensures { result ≡ row 36 s1 s2 0 }
{
    u32::from(s1 < s2)
}

pub fn cmpleu(s1: u32, s2: u32) -> u32
    ensures { result ≡ row 37 s1 s2 0 }
{
    u32::from(s1 <= s2)
}

pub fn cmpgtu(s1: u32, s2: u32) -> u32
    ensures { result ≡ row 38 s1 s2 0 }
{
    u32::from(s1 > s2)
}

pub fn cmpgeu(s1: u32, s2: u32) -> u32
    ensures { result ≡ row 39 s1 s2 0 }
{
    u32::from(s1 >= s2)
}
