// Kinds 2 and 3: a call of load or of check.
use crate::stream::{Header, Stop, Stream};

// Reads table, program and room, calls, and writes the number and the room.
pub fn answer<F: FnOnce(&[u8], &[u8], &mut [u8]) -> u32>(
    stream: Stream,
    header: &Header,
    call: F,
) -> Result<(), Stop>
    requires { F.IsAlwaysCallable call }
{
    let (mut table, mut program, mut room) = ([0; 64], [0; 16400], [0; 64]);
    let table = header.part(1, &mut table)?;
    let program = header.part(2, &mut program)?;
    let room = header.part(3, &mut room)?;
    stream.read(table)?;
    stream.read(program)?;
    stream.read(room)?;
    stream.write_number(call(table, program, room))?;
    stream.write(room)
}
