// The spots of a program, or of an instruction's stretch, one after the other.
ghost use Rattle.std.specs.Prelude.{◌≡◌, ◌+◌, ◌^◌, ◌<◌, length};
ghost use Rattle.word.specs.Bytes.{words};
ghost use Rattle.isa.specs.Program.{spots_from, spots};

use crate::Spot;
use crate::stretch::{before_all, next_spot};
use word::number::word_at;

// The syllables that are left, and the spot before them.
#[derive(Drop)]
pub struct Walk<'a> {
    left: &'a [u8],
    before: Spot,
    ghost few: { before.opened + length left.now < 2 ^ 63 },
}

#[inline(always)]
pub fn spots(syllables: &[u8]) -> Walk<'_>
    ensures { spots_from result.before.last result.before.opened (words result.left.now) ≡ spots (words syllables.now) }
{
    Walk {
        left: syllables,
        before: before_all(),
    }
}

impl Iterator for Walk<'_> {
    ghost use Rattle.std.specs.Iterator.{YieldsFirst, item_count};
    ghost use Rattle.isa.specs.Walk.{spots_left};

    type Item = Spot;

    ghost next_gives = { YieldsFirst spots_left };

    ghost remaining = { item_count spots_left };

    #[inline(always)]
    fn next(&mut self) -> Option<Spot> {
        if self.left.len() < 4 {
            return None;
        }
        let x = next_spot(self.before, word_at(self.left, 0));
        self.left = &self.left[4..];
        self.before = x;
        Some(x)
    }
}
