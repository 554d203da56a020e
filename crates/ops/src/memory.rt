// Opcodes 52 to 59: the address, and the value between a register and the bytes in memory.
ghost use Rattle.std.specs.Prelude.{◌≡◌};
ghost use Rattle.ops.specs.Value.{address, loaded, stored};

use word::field::{low, widen};

// The base plus the offset, which comes widened by sign.
#[tactic(auto, unfolding(meanings::specs::Value::address))]
pub fn address(base: u32, offset: u32) -> u32
    ensures { result ≡ address base offset }
{
    base.wrapping_add(offset)
}

// What the load `opcode` makes of the number v in the bytes it reads.
#[tactic(auto, unfolding(meanings::specs::Value::loaded))]
pub fn loaded(opcode: u32, v: u32) -> u32
    ensures { result ≡ loaded opcode v }
{
    match opcode {
        53 => widen::<16>(v),
        54 => low::<16>(v),
        55 => widen::<8>(v),
        56 => low::<8>(v),
        _ => v,
    }
}

// What the store `opcode` keeps of the register's value v.
#[tactic(auto, unfolding(meanings::specs::Value::stored))]
pub fn stored(opcode: u32, v: u32) -> u32
    ensures { result ≡ stored opcode v }
{
    match opcode {
        58 => low::<16>(v),
        59 => low::<8>(v),
        _ => v,
    }
}
