// What a request brings after its header, and what an answer is made of.
ghost use Rattle.std.specs.Prelude.{◌<◌, ◌^◌, length};

use std::io::{self, ErrorKind, Read, Stdin, Stdout, Write};
use word::number::word_at;

// Why no further request is answered.
#[derive(Drop)]
pub enum Stop {
    // the stream ended, or a string is too large
    Ended,
    Failed(io::Error),
}

impl From<io::Error> for Stop {
    fn from(e: io::Error) -> Stop {
        Stop::Failed(e)
    }
}

// Where requests come from, and where answers go.
#[derive(Clone, Copy)]
pub struct Stream {
    input: Stdin,
    output: Stdout,
}

impl Stream {
    pub fn new(input: Stdin, output: Stdout) -> Stream {
        Stream { input, output }
    }

    // Fills the buffer.
    pub fn read(self, buffer: &mut [u8]) -> Result<(), Stop> {
        let mut input = self.input;
        match input.read_exact(buffer) {
            Ok(()) => Ok(()),
            Err(e) if e.kind() == ErrorKind::UnexpectedEof => Err(Stop::Ended),
            Err(e) => Err(Stop::Failed(e)),
        }
    }

    pub fn write(self, bytes: &[u8]) -> Result<(), Stop> {
        let mut output = self.output;
        Ok(output.write_all(bytes)?)
    }

    pub fn write_number(self, x: u32) -> Result<(), Stop> {
        self.write(&x.to_be_bytes())
    }

    // The bytes' length, and the bytes.
    pub fn write_string(self, bytes: &[u8]) -> Result<(), Stop>
        requires { length bytes.now < 2 ^ 32 }
    {
        self.write_number(bytes.len() as u32)?;
        self.write(bytes)
    }
}

// A request's kind, sizes and numbers.
#[derive(Clone, Copy)]
pub struct Header(pub [u8; 32]);

impl Header {
    pub fn kind(&self) -> u8 {
        self.0[3]
    }

    // The number in the i-th word.
    pub fn word(&self, i: usize) -> u32
        requires { i < 8 }
    {
        word_at(&self.0, i * 4)
    }

    // As much of the buffer as the i-th word says, if there is as much.
    pub fn part<'a>(&self, i: usize, buffer: &'a mut [u8]) -> Result<&'a mut [u8], Stop>
        requires { i < 8 }
    {
        let n = self.word(i) as usize;
        buffer.get_mut(..n).ok_or(Stop::Ended)
    }
}
