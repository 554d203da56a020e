// Opcodes 3 to 7, bit by bit.
ghost use Rattle.std.specs.Prelude.{◌≡◌};
ghost use Rattle.meanings.specs.Value.{row};

pub fn and(s1: u32, s2: u32) -> u32
    ensures { result ≡ row 3 s1 s2 0 }
{
    s1 & s2
}

pub fn andc(s1: u32, s2: u32) -> u32
    ensures { result ≡ row 4 s1 s2 0 }
{
    !s1 & s2
}

pub fn or(s1: u32, s2: u32) -> u32
    ensures { result ≡ row 5 s1 s2 0 }
{
    s1 | s2
}

pub fn orc(s1: u32, s2: u32) -> u32
    ensures { result ≡ row 6 s1 s2 0 }
{
    !s1 | s2
}

pub fn xor(s1: u32, s2: u32) -> u32
    ensures { result ≡ row 7 s1 s2 0 }
{
    s1 ^ s2
}
