// What the programs read of a stream.
#![tactic(auto)]

ghost use Rattle.std.specs.Prelude.{◌≤◌, ◌<◌, IfOk, length, take};
ghost use Rattle.std.specs.Io.KnownBytes.{Consumes, IsAtEnd};

use std::io::{self, Read};

// Reads until the buffer is full or the input ends, and returns how many bytes were read.
pub fn read_full<R: Read>(from: &mut R, buffer: &mut [u8]) -> io::Result<usize>
    ensures within { IfOk result (λ n. n ≤ length buffer.new) }
    ensures bytes { IfOk result (λ n. Consumes (R.remaining from.old) (R.remaining from.new) (take n buffer.new)) }
    ensures ends { IfOk result (λ n. n < length buffer.new → IsAtEnd (R.remaining from.new)) }
{
    let mut done = 0;
    // no iterator: a reader may end, or give no more than a part
    while done < buffer.len() {
        match from.read(&mut buffer[done..])? {
            0 => return Ok(done),
            n => done += n,
        }
    }
    Ok(done)
}
