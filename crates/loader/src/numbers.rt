// Every number is tested over the whole input before the next, in the order of the numbers.
ghost use Rattle.std.specs.Prelude.{◌≡◌, false, Ok};
ghost use Rattle.word.specs.Bytes.{words};
ghost use Rattle.tables.specs.Bounds.{Bounds};
ghost use Rattle.refusals.specs.Broken.{bad_program_length, bad_room_length};
ghost use Rattle.loader.specs.Load.{◌otherwise◌, refused_if, tested_by, loaded_with, loaded_of};
ghost use Rattle.loader.specs.declared.Refusal.TheVariants.{ProgramLength, RoomLength};

use crate::Refusal;
use isa::Table;
use refusals::control::bad_control;
use refusals::instructions::{too_wide, two_writes};
use refusals::syllables::{bad_bits, bad_cluster, no_end};

// 3 to 8, of a program with a good size: each is tested over the whole program before the next.
fn tested(table: Table, program: &[u8]) -> Result<(), Refusal>
    requires bounds { Bounds table }
    requires program_value { bad_program_length program.now ≡ false }
    ensures { result ≡ tested_by table (words program.now) }
{
    if let Some(i) = no_end(program) {
        return Err(Refusal::NoEnd(i));
    }
    if let Some(i) = bad_bits(program) {
        return Err(Refusal::BadBits(i));
    }
    if let Some(i) = bad_cluster(table.clusters, program) {
        return Err(Refusal::BadCluster(i));
    }
    if let Some(i) = too_wide(table, program) {
        return Err(Refusal::TooWide(i));
    }
    if let Some(i) = two_writes(program) {
        return Err(Refusal::TwoWrites(i));
    }
    if let Some(i) = bad_control(program) {
        return Err(Refusal::BadControl(i));
    }
    Ok(())
}

// 1; what an entry found under 2; 3 to 8.
pub fn load_with(sizes: Result<(), Refusal>, table: &[u8], program: &[u8]) -> Result<(), Refusal>
    requires { sizes ≡ Ok tt → bad_program_length program.now ≡ false }
    ensures { result ≡ loaded_with sizes table.now program.now }
{
    if tables::breaks(table) {
        return Err(Refusal::BadTable);
    }
    sizes?;
    tested(tables::read(table), program)
}

// 2, of a program's bytes.
pub fn bad_program_length(program: &[u8]) -> bool
    ensures { result ≡ bad_program_length program.now }
{
    let n = program.len();
    (n == 0) | (16384 < n) | (n % 4 != 0)
}

// 2, for load and check: the program, then the room.
fn sizes(program: &[u8], room: &[u8]) -> Result<(), Refusal>
    ensures { result ≡ refused_if (bad_program_length program.now) ProgramLength otherwise refused_if (bad_room_length room.now) RoomLength }
{
    if bad_program_length(program) {
        return Err(Refusal::ProgramLength);
    }
    if room.len() != 12 {
        return Err(Refusal::RoomLength);
    }
    Ok(())
}

// Loading, for an entry that takes a table, a program and a room.
pub fn load(table: &[u8], program: &[u8], room: &[u8]) -> Result<(), Refusal>
    ensures { result ≡ loaded_of table.now program.now room.now }
{
    load_with(sizes(program, room), table, program)
}
