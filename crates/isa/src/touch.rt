// How long a result takes.
ghost use Rattle.std.specs.Prelude.{◌≡◌};
ghost use Rattle.isa.specs.Touch.{delay_of};

use crate::Delays;
use crate::syllable::{is_alu, is_mem, is_mul};

// Delays go by class, but every branch register result has delay CMPB.
pub fn delay(d: Delays, opcode: u32, register: u32) -> u64
    ensures { result ≡ delay_of d opcode register }
{
    if 256 <= register {
        return d.cmpb;
    }
    if is_alu(opcode) {
        return d.alu;
    }
    if is_mul(opcode) {
        return d.mul;
    }
    if is_mem(opcode) {
        return d.load;
    }
    d.copy
}
