// The table of the first labels of a text: those above the first line with 18, up to 4,096.
ghost use Rattle.std.specs.Prelude.{◌≡◌, ◌<◌, [], ◌++◌};
ghost use Rattle.arrayvec.specs.ArrayVec.{array_vec_len};
ghost use Rattle.source.specs.Seek.{name_in};
ghost use Rattle.evaluation.specs.Known.{Tabled};
ghost use Rattle.assembler.specs.Passes.{hashed, noted};

use arrayvec::ArrayVec;
use evaluation::labels::{Known, hash};
use source::each_line::Lines;
use source::reading::ReadLine;
use source::walking::{Walk, is_refused, step};

// Notes the label of the line at a place, if it gives one.
fn note(
    hashes: &mut ArrayVec<u32, 4096>,
    known: &mut ArrayVec<Known, 4096>,
    l: &ReadLine<'_>,
    place: usize,
    value: usize,
)
    requires { (array_vec_len hashes.old < 4096) × (array_vec_len known.old < 4096) }
    ensures { (hashes.new.items ≡ hashes.old.items ++ hashed (name_in l.now.bytes.now l.now.line.label))
        × (known.new.items ≡ known.old.items ++ noted (name_in l.now.bytes.now l.now.line.label) place value) }
{
    if let Some(name) = l.name() {
        hashes.push(hash(name));
        known.push(Known { place, value });
    }
}

// Fills the table of a text: the line where the search for the other labels goes on, and how far the text has come there.
pub fn fill(
    hashes: &mut ArrayVec<u32, 4096>,
    known: &mut ArrayVec<Known, 4096>,
    text: &[u8],
) -> (usize, Walk)
    requires { (hashes.old.items ≡ []) × (known.old.items ≡ []) }
    ensures { Tabled text.now hashes.new.items known.new.items result.0 result.1 }
{
    let mut w = Walk::START;
    for (place, l) in Lines::from_place(text, 0) {
        if known.is_full() || is_refused(w, l.line) {
            return (place, w);
        }
        note(hashes, known, &l, place, w.count);
        w = step(w, l.line);
    }
    (text.len(), w)
}
