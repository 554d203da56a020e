// Kind 6: a call of assemble.
use crate::stream::{Header, Stop, Stream};

// Reads text, program and room, calls, and writes the number, the room and the program.
pub fn answer(stream: Stream, header: &Header) -> Result<(), Stop> {
    let (mut text, mut program, mut room) = ([0; 300_000], [0; 32768], [0; 64]);
    let text = header.part(1, &mut text)?;
    let program = header.part(2, &mut program)?;
    let room = header.part(3, &mut room)?;
    stream.read(text)?;
    stream.read(program)?;
    stream.read(room)?;
    stream.write_number(sandbox::vex_assemble(text, program, room))?;
    stream.write(room)?;
    stream.write(program)
}
