// The lines of a text, one after another.
ghost use Rattle.std.specs.Prelude.{◌≡◌, ◌≤◌, length, IfSome, Some};
ghost use Rattle.std.proofs.Props.{props};

use crate::reading::{ReadLine, line_length, read};

// The lines that are left of a text, each with its place.
#[derive(Clone, Copy)]
pub struct Lines<'a> {
    text: &'a [u8],
    // where the next one begins
    next: Option<usize>,
    pub ghost inside: { IfSome next (λ at. at ≤ length text.now) } by { Prim.hlevel props },
}

impl<'a> Lines<'a> {
    // The lines from a place on.
    pub fn from_place(text: &'a [u8], at: usize) -> Lines<'a>
        requires { at ≤ length text.now }
        ensures { (result.text.now ≡ text.now) × (result.next ≡ Some at) }
    {
        Lines {
            text,
            next: Some(at),
        }
    }
}

impl<'a> Iterator for Lines<'a> {
    ghost use Rattle.std.specs.Iterator.{at_most};
    ghost use Rattle.source.specs.Each.{GivesLine, bytes_left};

    type Item = (usize, ReadLine<'a>);

    ghost next_gives = { GivesLine };

    ghost remaining = { λ it. at_most (bytes_left it) };

    fn next(&mut self) -> Option<(usize, ReadLine<'a>)> {
        let at = self.next?;
        let rest = &self.text[at..];
        let n = line_length(rest);
        self.next = if n < rest.len() {
            Some(at + n + 1)
        } else {
            None
        };
        Some((at, read(&rest[..n])))
    }
}
