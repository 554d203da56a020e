// Which registers an instruction reads or writes: it leaves its stamp on them, one more than its place.
ghost use Rattle.std.specs.Prelude.{◌≡◌, ◌&&◌, map, suc, ◌^◌, ◌<◌, eqb, ltb, get_or};
ghost use Rattle.word.specs.Bytes.{words};
ghost use Rattle.word.specs.Lists.{any};
ghost use Rattle.isa.specs.Control.{reads_every};
ghost use Rattle.isa.specs.Program.{spots, operation};
ghost use Rattle.schedule.specs.Decodable.{Decodable};
ghost use Rattle.schedule.specs.Stamps.{names, Registers, Stamped};

use isa::control::reads_every;
use isa::stretch::operation;
use isa::walk::spots;
use isa::{Op, Place, Way};

// Call and return read every register.
fn stamp_every(w: Way, n: usize, stamps: &mut [usize; 288])
    ensures { Stamped (λ r. reads_every w && ltb r 288) n stamps.old stamps.new }
{
    if reads_every(w) {
        stamps.fill(n);
    }
}

fn stamp(o: Op, n: usize, stamps: &mut [usize; 288])
    requires { Registers o }
    ensures { Stamped (λ r. names r o) n stamps.old stamps.new }
{
    stamp_every(o.way, n, stamps);
    stamps[o.s1 as usize] = n;
    stamps[o.s2 as usize] = n;
    stamps[o.b as usize] = n;
    stamps[o.stored as usize] = n;
    stamps[o.t as usize] = n;
    stamps[o.carry as usize] = n;
}

// The stamps of the instruction at a place.
pub fn stamp_touched(stretch: &[u8], at: Place, stamps: &mut [usize; 288])
    requires decodable { Decodable (words stretch.now) }
    requires at_bound { at.0 < 2 ^ 63 }
    ensures { Stamped (λ r. any (names r) (map operation (spots (words stretch.now)))) (suc at.0) stamps.old stamps.new }
{
    let n = at.0 + 1;
    for x in spots(stretch) {
        stamp(operation(x), n, stamps);
    }
}

// Whether the instruction at a place has left its stamp on a register.
pub fn touches(stamps: &[usize; 288], at: Place, register: u32) -> bool
    requires { (at.0 < 2 ^ 63) × (register < 288) }
    ensures { result ≡ eqb (get_or stamps.now register 0) (suc at.0) }
{
    stamps[register as usize] == at.0 + 1
}
