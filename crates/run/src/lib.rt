// The run: at most n instructions, each gathered from its operations, then written.
#![tactic(auto)]

ghost use Rattle.std.specs.Prelude.{◌≡◌, true, false, ◌^◌, ◌<◌};
ghost use Rattle.word.specs.Bytes.{words};
ghost use Rattle.word.specs.Lists.{any_below};
ghost use Rattle.vliw.specs.Run.{run};
ghost use Rattle.vliw.specs.Cell.{at};
ghost use Rattle.vliw.specs.Machine.{in_order, step};
ghost use Rattle.isa.specs.Program.{is_start};
ghost use Rattle.machine.specs.Link.{memory_of, change};
ghost use Rattle.machine.specs.Instruction.{instruction_of};
ghost use Rattle.machine.specs.State.{registers_of, Sized};
ghost use Rattle.machine.specs.Valid.{bad_register};
ghost use Rattle.ticks.specs.Ticks.{views};
ghost use Rattle.turn.specs.Turn.{situation_at, beside, Runs, Running};
ghost use Rattle.run.specs.Loop.{Finished, Returned, left_at};

use gather::Scratch;
use isa::program::is_start;
use isa::{Count, Table};
use machine::State;
use ticks::Registers;
use turn::{Given, Link, Point};
use vliw::Ending;

// How a run ended, after how many instructions, and where it stands then.
#[derive(Clone, Copy)]
pub struct Ended {
    pub ending: Ending,
    pub count: Count,
    pub at: Point,
}

// What a run returns: how it ended, how many instructions it executed, and the state that it left.
#[derive(Drop)]
pub struct Left {
    pub ending: Ending,
    pub count: Count,
    pub state: State,
}

// At most n instructions. A tick of the registers is an instruction of this call.
fn run_all(
    given: &Given<'_>,
    n: Count,
    start: Point,
    memory: &mut [u8],
    registers: &mut Registers,
) -> Ended
    requires runs { Runs given.now.delays (words given.now.program.now) }
    requires running { Running 0 (words given.now.program.now) start registers.old.all }
    requires none { start.used ≡ 0 }
    requires n_bound { n.0 < 4294967296 }
    ensures { Finished given.now.delays (words given.now.program.now) given.now.landing.now n.0
        (situation_at start.place.0 (views 0 registers.old.all) (beside memory.old start.link) given.now.landing.now 0)
        result registers.new.all memory.new }
{
    let mut scratch = Scratch::new();
    let mut at = start;
    for i in 0..n.0 {
        // the tick, too
        let done = Count(i);
        match given.step(done, at, memory, registers, &mut scratch) {
            Ok(next) => at = next,
            Err(ending) => {
                return Ended {
                    ending,
                    count: done,
                    at,
                };
            }
        }
    }
    Ended {
        ending: Ending::Paused,
        count: n,
        at,
    }
}

// The tick at which the registers are left.
fn left_at(ending: Ending, count: Count) -> Count
    requires { count.0 < 4294967296 }
    ensures { result.0 ≡ left_at ending count.0 }
{
    match ending {
        Ending::Stopped => Count(count.0 + 8),
        Ending::Paused | Ending::Faulted(_) => count,
    }
}

// A run of at most n instructions, from a valid state of a program that loads.
pub fn run(
    table: Table,
    program: &[u8],
    memory: &mut [u8],
    landing: &[u8],
    n: Count,
    s: State,
) -> Left
    requires runs { Runs table.delays (words program.now) }
    requires place_value { is_start (words program.now) s.place.0 ≡ true }
    requires r_value { any_below (λ r. bad_register r (at (registers_of s) r)) 288 ≡ false }
    requires n_bound { (n.0 < 4294967296) × (s.link.0 < 2 ^ 32) }
    ensures start { (is_start (words program.now) result.state.place.0 ≡ true) × (result.state.link.0 < 2 ^ 32) }
    ensures is { Returned
        (run (step change (instruction_of table.delays (words program.now))) n.0
        (record { place = s.place.0; registers = registers_of s; memory = memory_of memory.old s.link.0; landing = landing.now; orders = in_order }))
        result memory.new }
{
    let given = Given {
        program,
        landing,
        delays: table.delays,
    };
    let mut registers = Registers::default();
    registers.enter(&s);
    let start = Point {
        place: s.place,
        used: 0,
        free: registers.free_from(),
        link: Link {
            place: s.link,
            starts: is_start(program, s.link),
        },
    };
    let r = run_all(&given, n, start, memory, &mut registers);
    let t = left_at(r.ending, r.count);
    Left {
        ending: r.ending,
        count: r.count,
        state: registers.leave(t, r.at.place, r.at.link.place),
    }
}
