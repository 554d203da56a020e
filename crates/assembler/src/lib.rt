// The assembler: a text in the notation, read into syllables.
#![tactic(auto)]

ghost use Rattle.std.specs.Prelude.{◌≡◌};
ghost use Rattle.loader.specs.Answer.{answer};
ghost use Rattle.assembler.specs.Answer.{unfit, assembled, assemble_outcome};
ghost use Rattle.assembler.specs.Promise.{LowestFirst, ByGrammar, Counted};
ghost use Rattle.assembler.specs.Examples.{Examples};

pub mod judging; // judging.rt: the lowest fault of a text, or how many syllables it has
mod tabling; // tabling.rt: the table of the first labels
mod writing; // writing.rt: the syllables, put into the program

use arrayvec::ArrayVec;
use evaluation::labels::{Known, Labels};
use judging::judge;
use loader::{Answer, answers};
use tabling::fill;
use writing::write;

// Whether so many syllables are refused with 2, place 0.
fn is_unfit(n: usize, bytes: usize) -> bool
    ensures { result ≡ unfit n bytes }
{
    n == 0 || 4096 < n || bytes / 4 < n
}

fn refused(number: u32, place: u64) -> Answer
    ensures { result ≡ answer number 0 place }
{
    Answer {
        number,
        count: 0,
        place,
    }
}

// Judges a text and puts its syllables into the program, unless it is refused, or the room is not of 12 bytes.
fn answer(text: &[u8], program: &mut [u8], room: usize) -> Answer
    ensures { record { answer = result; program = program.new } ≡ assembled text.now program.old room }
{
    let mut hashes = ArrayVec::<u32, 4096>::new();
    let mut known = ArrayVec::<Known, 4096>::new();
    let (at, walk) = fill(&mut hashes, &mut known, text);
    let labels = Labels {
        text,
        hashes: hashes.as_slice(),
        known: known.as_slice(),
        at,
        walk,
    };
    let n = match judge(&labels) {
        Ok(n) => n,
        Err(fault) => return refused(fault.wrong.number(), fault.line as u64 + 1),
    };
    if is_unfit(n, program.len()) {
        return refused(2, 0);
    }
    if room != 12 {
        return refused(2, 3);
    }
    write(&labels, program);
    Answer {
        number: 0,
        count: n as u64,
        place: 0,
    }
}

// Assembles a text: the syllables in the program, the answer in the room, and its number returned.
pub fn assemble(text: &[u8], program: &mut [u8], room: &mut [u8]) -> u32
    ensures { record { result = result; program = program.new; room = room.new }
        ≡ assemble_outcome text.now program.old room.old }
{
    let a = answer(text, program, room.len());
    answers::write(room, a);
    a.number
}

// What is proved of the assembler. The functions do nothing: their promises are the theorems, so that nobody drops one unseen.
pub fn lowest_theorems()
    ensures { LowestFirst }
{}

pub fn grammar_theorems()
    ensures { ByGrammar }
{}

pub fn counted_theorems()
    ensures { Counted }
{}

pub fn examples()
    ensures { Examples }
{}
