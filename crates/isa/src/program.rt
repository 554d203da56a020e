// A program as bytes: its syllables, and where its instructions start.
ghost use Rattle.std.specs.Prelude.{◌≡◌, ℕ, ◌<◌, List, length, get_or};
ghost use Rattle.word.specs.Bytes.{words};
ghost use Rattle.isa.specs.Program.{is_start, following, Starts};

use crate::Place;
use word::number::word_at;

pub fn syllable(program: &[u8], at: Place) -> u32
    requires { at.0 < length (words program.now) }
    ensures { result ≡ get_or (words program.now) at.0 0 }
{
    word_at(program, at.0 * 4)
}

// The place after the instruction from `at`: after the first syllable with the end bit, or the program's end.
pub fn following(program: &[u8], at: Place) -> Place
    requires { at.0 < length (words program.now) }
    ensures { result.0 ≡ following (words program.now) at.0 }
{
    let n = program.len() / 4;
    for i in at.0..n {
        // The end bit is the highest of a syllable's first byte.
        if program[i * 4] >> 7 != 0 {
            return Place(i + 1);
        }
    }
    Place(n)
}

// Whether an instruction starts at `at`: a walk over the starts, from the program's first.
pub fn is_start(program: &[u8], at: Place) -> bool
    ensures { result ≡ is_start (words program.now) at.0 }
{
    if program.len() / 4 <= at.0 {
        return false;
    }
    let mut i = Place(0);
    while i < at {
        i = following(program, i);
    }
    i == at
}

// Where instructions start, in plain words. The function does nothing: its promise is the theorem, so that nobody drops it unseen.
pub fn starts()
    ensures { (program : List ℕ) → Starts program }
{}
