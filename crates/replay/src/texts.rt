// Kinds 5 and 7: a text for the program preview or assemble.
ghost use Rattle.std.specs.Prelude.{◌<◌, ◌^◌};

use crate::stream::{Header, Stop, Stream};

// What the text program shows of a text.
pub fn show(stream: Stream, input: &[u8]) -> Result<(), Stop> {
    let shown = text::show(input);
    stream.write_string(shown.as_slice())
}

// What a text is assembled to, as it is printed.
pub fn print(stream: Stream, input: &[u8]) -> Result<(), Stop> {
    let printed = assembly::print(input);
    stream.write_string(printed.as_slice())
}

// Reads a text of at most N bytes, and writes what is made of it.
pub fn answer<const N: usize, F: FnOnce(Stream, &[u8]) -> Result<(), Stop>>(
    stream: Stream,
    header: &Header,
    write: F,
) -> Result<(), Stop>
    requires size { N < 2 ^ 32 }
    requires writes { F.IsAlwaysCallable write }
{
    let mut input = [0; N];
    let input = header.part(1, &mut input)?;
    stream.read(input)?;
    write(stream, input)
}
