// The instructions of a program, one after the other.
ghost use Rattle.std.specs.Prelude.{◌≡◌, true, ◌<◌, length};
ghost use Rattle.word.specs.Bytes.{words};
ghost use Rattle.isa.specs.Program.{is_start};

use crate::Place;
use crate::stretch::cut;

// The program, and the place of the one that comes next.
#[derive(Drop)]
pub struct Cuts<'a> {
    program: &'a [u8],
    at: Place,
    ghost starts: { at.0 < length (words program.now) → is_start (words program.now) at.0 ≡ true },
}

#[inline(always)]
pub fn instructions(program: &[u8]) -> Cuts<'_>
    ensures { (result.program.now ≡ program.now) × (result.at.0 ≡ 0) }
{
    Cuts {
        program,
        at: Place(0),
    }
}

// Each with its place, as its own stretch of the program.
impl<'a> Iterator for Cuts<'a> {
    ghost use Rattle.std.specs.Iterator.{at_most};
    ghost use Rattle.isa.specs.Cuts.{GivesInstruction, syllables_left};

    type Item = (Place, &'a [u8]);

    ghost next_gives = { GivesInstruction };

    ghost remaining = { λ it. at_most (syllables_left it) };

    #[inline(always)]
    fn next(&mut self) -> Option<(Place, &'a [u8])> {
        let at = self.at;
        if self.program.len() / 4 <= at.0 {
            return None;
        }
        let stretch = cut(self.program, at);
        self.at = Place(at.0 + stretch.len() / 4);
        Some((at, stretch))
    }
}
