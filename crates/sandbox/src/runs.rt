// A call of run up to its reply: what stands against it, and the run itself.
ghost use Rattle.std.specs.Prelude.{◌≡◌, List, ℕ, ◌≤◌, length, Ok};
ghost use Rattle.word.specs.Bytes.{words};
ghost use Rattle.tables.specs.Table.{table_of};
ghost use Rattle.tables.specs.Bounds.{Bounds};
ghost use Rattle.loader.specs.Passed.{Passed};
ghost use Rattle.call.specs.Run.{sizes_of, done_by, done_of};

use call::{Ended, Unrun};
use isa::Count;
use isa::program::is_start;
use loader::{Refusal, bad_program_length, load_with};
use machine::image;
use machine::valid::bad_registers;
use run::run;
use tables::read;

// 2, for run: the program, the memory, the state image, then the room.
fn sizes(program: &[u8], memory: &[u8], state: &[u8], room: &[u8]) -> Result<(), Refusal>
    ensures { result ≡ sizes_of program.now memory.now state.now room.now }
{
    if bad_program_length(program) {
        return Err(Refusal::ProgramLength);
    }
    if 65536 < memory.len() {
        return Err(Refusal::MemoryLength);
    }
    if state.len() != 2888 {
        return Err(Refusal::StateLength);
    }
    if room.len() != 12 {
        return Err(Refusal::RoomLength);
    }
    Ok(())
}

// The run of a program that loads, from the state that the image holds.
fn ran(
    table: &[u8],
    program: &[u8],
    state: &mut [u8],
    memory: &mut [u8],
    landing: &[u8],
    n: u32,
) -> Result<Ended, Unrun>
    requires bounds { Bounds (table_of table.now) × Passed (table_of table.now) (words program.now) }
    requires program_len_bound { (length program.now ≤ 16384) × (length state.old ≡ 2888) }
    ensures { (room : List ℕ) → record { reply = result; state = state.new; memory = memory.new } ≡ done_by (Ok tt) (record {
      table = table.now;
      program = program.now;
      state = state.old;
      memory = memory.old;
      landing = landing.now;
      n = n;
      room = room;
    }) }
{
    let s = image::read(state);
    if !is_start(program, s.place) {
        return Err(Unrun::BadState);
    }
    if bad_registers(&s) {
        return Err(Unrun::BadState);
    }
    let r = run(read(table), program, memory, landing, Count(n as u64), s);
    image::write(state, &r.state);
    Ok(Ended {
        ending: r.ending,
        count: r.count,
        place: r.state.place,
    })
}

// A call of run, all but its answer, of what the C interface hands over.
pub fn call(
    table: &[u8],
    program: &[u8],
    state: &mut [u8],
    memory: &mut [u8],
    landing: &[u8],
    n: u32,
    room: &[u8],
) -> Result<Ended, Unrun>
    ensures { record { reply = result; state = state.new; memory = memory.new } ≡ done_of (record {
      table = table.now;
      program = program.now;
      state = state.old;
      memory = memory.old;
      landing = landing.now;
      n = n;
      room = room.now;
    }) }
{
    load_with(sizes(program, memory, state, room), table, program)?;
    ran(table, program, state, memory, landing, n)
}
