// Where a label is given, found by going through the lines.
ghost use Rattle.std.specs.Prelude.{◌≡◌, ◌*◌, ◌≤◌, length, drop};
ghost use Rattle.source.specs.Grammar.{lines_of};
ghost use Rattle.source.specs.Labels.{next};
ghost use Rattle.source.specs.Seek.{walk_of, hear_from, seek};

use crate::each_line::Lines;
use crate::walking::{Walk, step};

// The place of the line where a label is first given, and its value.
#[derive(Clone, Copy)]
pub struct Given {
    pub place: usize,
    pub value: usize,
}

// The index of the instruction that comes next, for a label on the line at `from`.
fn next_from(text: &[u8], from: usize, w: Walk) -> usize
    requires { (from ≤ length text.now) × (w.count ≤ from * 2) }
    ensures { result ≡ next (walk_of w) (hear_from text.now from) }
{
    // no line is read where no instruction is open
    if w.opened == 0 {
        return w.count;
    }
    let mut v = w;
    for (_, l) in Lines::from_place(text, from) {
        v = step(v, l.line);
        if v.opened == 0 {
            break;
        }
    }
    v.count
}

// Where the label of that name is first given, on the line at `from` or below.
pub fn search(text: &[u8], from: usize, w: Walk, name: &[u8]) -> Option<Given>
    requires { (from ≤ length text.now) × (w.count ≤ from * 2) }
    ensures { result ≡ seek (walk_of w) from (lines_of (drop from text.now)) name.now }
{
    let mut v = w;
    for (place, l) in Lines::from_place(text, from) {
        if l.gives(name) {
            return Some(Given {
                place,
                value: next_from(text, place, v),
            });
        }
        v = step(v, l.line);
    }
    None
}
