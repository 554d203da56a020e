// What a producer makes: its results that take longer than one instruction.
ghost use Rattle.std.specs.Prelude.{◌≡◌, List, ◌++◌, map, ℕ, ◌+◌, ◌≤◌, ◌<◌, fold, max};
ghost use Rattle.arrayvec.specs.ArrayVec.{array_vec_len};
ghost use Rattle.word.specs.Bytes.{words};
ghost use Rattle.vliw.specs.Machine.{Dest};
ghost use Rattle.isa.specs.Program.{spots, operation};
ghost use Rattle.isa.specs.Touch.{delay_of, dests};
ghost use Rattle.schedule.specs.Decodable.{Decodable};
ghost use Rattle.schedule.specs.Late.{LateOf, made};

use arrayvec::ArrayVec;
use isa::Delays;
use isa::stretch::operation;
use isa::touch::delay;
use isa::walk::spots;

// A result in a register, and its delay.
#[derive(Clone, Copy, Default)]
pub struct Late {
    pub register: u32,
    pub delay: usize,
}

// Keeps the result of an operation in a register, if it takes longer than one instruction.
fn keep(d: Delays, opcode: u32, register: u32, late: &mut ArrayVec<Late, 64>)
    requires by_index { (o r : ℕ) → delay_of d o r ≤ 8 }
    requires register_bound { register < 288 }
    requires count_bound { array_vec_len late.old < 64 }
    ensures count_bound_2 { array_vec_len late.new ≤ array_vec_len late.old + 1 }
    ensures late_of { (es : List Dest) → LateOf es late.old.items
        → LateOf (es ++ made register (delay_of d opcode register)) late.new.items }
{
    let wait = delay(d, opcode, register) as usize;
    if register == 0 || wait <= 1 {
        return;
    }
    late.push(Late {
        register,
        delay: wait,
    });
}

// The late results of an instruction.
pub fn late_results(d: Delays, stretch: &[u8], late: &mut ArrayVec<Late, 64>)
    requires by_index { (o r : ℕ) → delay_of d o r ≤ 8 }
    requires decodable { Decodable (words stretch.now) }
    ensures { LateOf (dests d (map operation (spots (words stretch.now)))) late.new.items }
{
    late.clear();
    for x in spots(stretch) {
        let o = operation(x);
        keep(d, o.opcode, o.t, late);
        keep(d, o.opcode, o.carry, late);
    }
}

// The longest delay, or 0 where no result is late.
pub fn longest(late: &[Late]) -> usize
    ensures { result ≡ fold (λ a x. max a x.delay) 0 late.now }
{
    late.iter().map(|x| x.delay).max().unwrap_or(0)
}
