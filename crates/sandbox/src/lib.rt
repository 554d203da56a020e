// What a host calls: entries on numbers and byte slices, which sandbox_c exports to C. Each tests what it takes, and none asks anything of its caller.
#![tactic(auto)]

ghost use Rattle.std.specs.Prelude.{◌≡◌};
ghost use Rattle.loader.specs.Answer.{load_outcome};
ghost use Rattle.assembler.specs.Answer.{assemble_outcome};
ghost use Rattle.call.specs.Run.{run_outcome};
ghost use Rattle.schedule.specs.Answer.{Answers, Checks};

mod runs;

use loader::{Answer, answers};
use runs::call;
use schedule::answers::of_verdict;
use tables::read;

// Assembles a text: the syllables in the program, the answer in the room, and its number returned.
pub fn vex_assemble(text: &[u8], program: &mut [u8], room: &mut [u8]) -> u32
    ensures { record { result = result; program = program.new; room = room.new }
        ≡ assemble_outcome text.now program.old room.old }
{
    assembler::assemble(text, program, room)
}

// Loads a program under a delay table: the answer in the room, and its number returned.
pub fn vex_load(table: &[u8], program: &[u8], room: &mut [u8]) -> u32
    ensures { record { result = result; room = room.new }
        ≡ load_outcome table.now program.now room.old }
{
    let answer = Answer::from(loader::load(table, program, room));
    answers::write(room, answer);
    answer.number
}

// The answer of check: a refusal's, or the verdict's.
fn checked(table: &[u8], program: &[u8], room: &[u8]) -> Answer
    ensures { Answers table.now program.now room.now result }
{
    match loader::load(table, program, room) {
        Err(refusal) => refusal.into(),
        Ok(()) => of_verdict(schedule::check(read(table), program)),
    }
}

// Loads a program and checks its schedule: the answer in the room, and its number returned.
pub fn vex_check(table: &[u8], program: &[u8], room: &mut [u8]) -> u32
    ensures { Checks table.now program.now room.old
        (record { result = result; room = room.new }) }
{
    let answer = checked(table, program, room);
    answers::write(room, answer);
    answer.number
}

// Runs at most n instructions of a program, from the state that the image holds: the answer in the room, and its number returned.
pub fn vex_run(
    table: &[u8],
    program: &[u8],
    state: &mut [u8],
    memory: &mut [u8],
    landing: &[u8],
    n: u32,
    room: &mut [u8],
) -> u32
    ensures { record { result = result; state = state.new; memory = memory.new; room = room.new }
        ≡ run_outcome (record {
          table = table.now;
          program = program.now;
          state = state.old;
          memory = memory.old;
          landing = landing.now;
          n = n;
          room = room.old;
        }) }
{
    // the parameters are what the C interface hands over (include/vex.h)
    let answer = match call(table, program, state, memory, landing, n, room) {
        Ok(ended) => Answer::from(ended),
        Err(unrun) => Answer::from(unrun),
    };
    answers::write(room, answer);
    answer.number
}
