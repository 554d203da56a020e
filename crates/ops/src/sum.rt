// Opcodes 1, 2, 11 to 14 and 23: sums and a difference, modulo 2^32.
ghost use Rattle.std.specs.Prelude.{◌≡◌, ◌+◌, ◌*◌, ◌^◌, ◌<◌};
ghost use Rattle.meanings.specs.Arith.{wrap};
ghost use Rattle.meanings.specs.Value.{row};
ghost use Rattle.ops.specs.Value.{carry};

pub fn add(s1: u32, s2: u32) -> u32
    ensures { result ≡ row 1 s1 s2 0 }
{
    s1.wrapping_add(s2)
}

// s2 minus s1
pub fn sub(s1: u32, s2: u32) -> u32
    ensures { result ≡ row 2 s1 s2 0 }
{
    s2.wrapping_sub(s1)
}

// sh1add to sh4add: s1 shifted left by K, plus s2
pub fn shift_add<const K: u32>(s1: u32, s2: u32) -> u32
    requires { K < 32 }
    ensures { result ≡ wrap (s1 * 2 ^ K + s2) }
{
    (s1 << K).wrapping_add(s2)
}

// The sum; `carry` is its other result.
pub fn addcg(s1: u32, s2: u32, b: u32) -> u32
    ensures { result ≡ row 23 s1 s2 b }
{
    s1.wrapping_add(s2).wrapping_add(b)
}

// addcg's carry: what the sum has above 32 bits
#[tactic(auto, unfolding(meanings::specs::Value::carry))]
pub fn carry(s1: u32, s2: u32, b: u32) -> u32
    ensures { result ≡ carry s1 s2 b }
{
    let sum = s1 as u64 + s2 as u64 + b as u64;
    (sum >> 32) as u32
}
