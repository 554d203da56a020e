// Opcodes 50 and 51.
ghost use Rattle.std.specs.Prelude.{◌≡◌};
ghost use Rattle.meanings.specs.Value.{row};

pub fn slct(s1: u32, s2: u32, b: u32) -> u32
    ensures { result ≡ row 50 s1 s2 b }
{
    if b == 1 { s1 } else { s2 }
}

pub fn slctf(s1: u32, s2: u32, b: u32) -> u32
    ensures { result ≡ row 51 s1 s2 b }
{
    if b == 1 { s2 } else { s1 }
}
