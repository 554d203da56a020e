// The entries of include/vex.h, for C: each is the sandbox's function of the same name, and has its clauses.
#![tactic(auto)]

ghost use Rattle.std.specs.Prelude.{◌≡◌};
ghost use Rattle.loader.specs.Answer.{load_outcome};
ghost use Rattle.assembler.specs.Answer.{assemble_outcome};
ghost use Rattle.call.specs.Run.{run_outcome};
ghost use Rattle.schedule.specs.Answer.{Checks};

// Assembles a text: the syllables in the program, the answer in the room, and its number returned.
#[unsafe(no_mangle)]
pub extern "C" fn vex_assemble(text: &[u8], program: &mut [u8], room: &mut [u8]) -> u32
    ensures { record { result = result; program = program.new; room = room.new }
        ≡ assemble_outcome text.now program.old room.old }
{
    sandbox::vex_assemble(text, program, room)
}

// Loads a program under a delay table: the answer in the room, and its number returned.
#[unsafe(no_mangle)]
pub extern "C" fn vex_load(table: &[u8], program: &[u8], room: &mut [u8]) -> u32
    ensures { record { result = result; room = room.new }
        ≡ load_outcome table.now program.now room.old }
{
    sandbox::vex_load(table, program, room)
}

// Loads a program and checks its schedule: the answer in the room, and its number returned.
#[unsafe(no_mangle)]
pub extern "C" fn vex_check(table: &[u8], program: &[u8], room: &mut [u8]) -> u32
    ensures { Checks table.now program.now room.old
        (record { result = result; room = room.new }) }
{
    sandbox::vex_check(table, program, room)
}

// Runs at most n instructions of a program, from the state that the image holds: the answer in the room, and its number returned.
#[unsafe(no_mangle)]
pub extern "C" fn vex_run(
    table: &[u8],
    program: &[u8],
    state: &mut [u8],
    memory: &mut [u8],
    landing: &[u8],
    n: u32,
    room: &mut [u8],
) -> u32
    ensures { record { result = result; state = state.new; memory = memory.new; room = room.new }
        ≡ run_outcome (record {
          table = table.now;
          program = program.now;
          state = state.old;
          memory = memory.old;
          landing = landing.now;
          n = n;
          room = room.old;
        }) }
{
    sandbox::vex_run(table, program, state, memory, landing, n, room)
}
