// Performs recorded calls, for the second program: a stream of requests on standard input, a stream of answers on standard output.
// second/README.md has the format. No contract can say what is read or written; what is called is proved.
#![tactic(auto)]

mod assembles;
mod programs;
mod results;
mod runs;
mod stream;
mod texts;

use std::io;
use stream::{Header, Stop, Stream};

// What a request asks for.
enum Kind {
    Results,
    Load,
    Check,
    Run,
    Show,
    Assemble,
    Print,
}

impl TryFrom<u8> for Kind {
    type Error = Stop;

    fn try_from(number: u8) -> Result<Kind, Stop> {
        match number {
            1 => Ok(Kind::Results),
            2 => Ok(Kind::Load),
            3 => Ok(Kind::Check),
            4 => Ok(Kind::Run),
            5 => Ok(Kind::Show),
            6 => Ok(Kind::Assemble),
            7 => Ok(Kind::Print),
            _ => Err(Stop::Ended),
        }
    }
}

// Reads a request and answers it.
fn answer(stream: Stream) -> Result<(), Stop> {
    let mut header = Header([0; 32]);
    stream.read(&mut header.0)?;
    match Kind::try_from(header.kind())? {
        Kind::Results => results::answer(stream, &header),
        Kind::Load => programs::answer(stream, &header, sandbox::vex_load),
        Kind::Check => programs::answer(stream, &header, sandbox::vex_check),
        Kind::Run => runs::answer(stream, &header),
        Kind::Show => texts::answer::<40_000, _>(stream, &header, texts::show),
        Kind::Assemble => assembles::answer(stream, &header),
        Kind::Print => texts::answer::<300_000, _>(stream, &header, texts::print),
    }
}

fn main(rt: HostRuntime) -> io::Result<()> {
    let stream = Stream::new(rt.stdin(), rt.stdout());
    // no loop is endless: a stream has at most this many requests
    for _ in 0..1_000_000_000u64 {
        match answer(stream) {
            Ok(()) => {}
            Err(Stop::Ended) => return Ok(()),
            Err(Stop::Failed(e)) => return Err(e),
        }
    }
    Ok(())
}
