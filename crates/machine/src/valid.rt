// Whether a state's registers are valid.
ghost use Rattle.std.specs.Prelude.{◌≡◌};
ghost use Rattle.word.specs.Lists.{any_below};
ghost use Rattle.vliw.specs.Cell.{at};
ghost use Rattle.machine.specs.State.{cell_of, registers_of, Sized};
ghost use Rattle.machine.specs.Valid.{bad_register};

use crate::{Cell, State};

// Document 01's sentence, test by test. No branch, since a valid state goes through every test.
fn breaks(r: usize, c: Cell) -> bool
    ensures { result ≡ bad_register r (cell_of c) }
{
    let zero_register = (r < 256) & (r % 64 == 0);
    let all_zero = (c.value == 0) & (c.waiting == 0) & (c.busy == 0) & (c.landing == 0);
    zero_register & !all_zero
        | (c.busy < c.landing)
        | (7 < c.busy)
        | (c.landing == 0) & (c.waiting != 0)
        | (256 <= r) & ((1 < c.value) | (1 < c.waiting))
}

// Whether the state's registers break a rule; its place is not looked at.
pub fn bad_registers(s: &State) -> bool
    requires { Sized s.now }
    ensures { result ≡ any_below (λ r. bad_register r (at (registers_of s.now) r)) 288 }
{
    let mut broken = false;
    // the general and the branch registers apart, so that the compiled loops don't ask which it is
    for r in 0..256 {
        broken = breaks(r, s.register(r)) | broken;
    }
    for r in 256..288 {
        broken = breaks(r, s.register(r)) | broken;
    }
    broken
}
