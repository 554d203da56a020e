// Kind 4: a call of run.
use crate::stream::{Header, Stop, Stream};

// Reads six strings, two by two, calls, and writes the number, the room, the state and the memory.
pub fn answer(stream: Stream, header: &Header) -> Result<(), Stop> {
    let (mut table, mut program) = ([0; 64], [0; 16400]);
    let table = header.part(1, &mut table)?;
    let program = header.part(2, &mut program)?;
    stream.read(table)?;
    stream.read(program)?;
    let (mut state, mut memory) = ([0; 4096], [0; 65600]);
    let state = header.part(3, &mut state)?;
    let memory = header.part(4, &mut memory)?;
    stream.read(state)?;
    stream.read(memory)?;
    let (mut landing, mut room) = ([0; 65536], [0; 64]);
    let landing = header.part(5, &mut landing)?;
    let room = header.part(7, &mut room)?;
    stream.read(landing)?;
    stream.read(room)?;
    let n = header.word(6);
    let number = sandbox::vex_run(table, program, state, memory, landing, n, room);
    stream.write_number(number)?;
    stream.write(room)?;
    stream.write(state)?;
    stream.write(memory)
}
