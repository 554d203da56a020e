// Where a label is given: the first labels of a text are in a table, and the others are searched for.
ghost use Rattle.std.specs.Prelude.{◌≡◌, ◌≤◌, length};
ghost use Rattle.source.specs.Grammar.{lines_of};
ghost use Rattle.source.specs.Walk.{start};
ghost use Rattle.source.specs.Labels.{gives};
ghost use Rattle.source.specs.Reader.{hear};
ghost use Rattle.source.specs.Seek.{seek};
ghost use Rattle.evaluation.specs.Known.{hash_of, line_at, Tabled, tabled_prop};
ghost use Rattle.evaluation.specs.Evaluated.{labels_of};

use source::reading::{line_length, read};
use source::seeking::{Given, search};
use source::walking::Walk;
use values::{Fault, Value};

// A label of the table: the place of its line, and its value.
#[derive(Clone, Copy, Default)]
pub struct Known {
    pub place: usize,
    pub value: usize,
}

// The labels of a text.
#[derive(Clone, Copy)]
pub struct Labels<'a> {
    pub text: &'a [u8],
    // the first ones, and the hashes of their names: apart, as a walk through the table reads little else
    pub hashes: &'a [u32],
    pub known: &'a [Known],
    // the line where the search for the others goes on, and how far the text has come there
    pub at: usize,
    pub walk: Walk,
    pub ghost tabled: { Tabled text.now hashes.now known.now at walk } by { tabled_prop text.now hashes.now known.now at walk },
}

impl<'a> Labels<'a> {
    // Where the label of that name is first given.
    pub fn find(&self, name: &[u8]) -> Option<Given>
        ensures { result ≡ seek start 0 (lines_of self.now.text.now) name.now }
    {
        let h = hash(name);
        for (i, other) in self.hashes.iter().enumerate() {
            if *other == h && is_given(self.text, self.known[i].place, name) {
                let k = self.known[i];
                return Some(Given {
                    place: k.place,
                    value: k.value,
                });
            }
        }
        search(self.text, self.at, self.walk, name)
    }

    // The value of a label.
    pub fn value(&self, name: &[u8]) -> Value
        ensures { result ≡ labels_of self.now.text.now name.now }
    {
        let Some(g) = self.find(name) else {
            return Err(Fault::Missing);
        };
        if g.value < 1 << 31 {
            Ok((1 << 31) + g.value as u32)
        } else {
            Err(Fault::Outside)
        }
    }
}

pub fn hash(name: &[u8]) -> u32
    ensures { result ≡ hash_of name.now }
{
    let mut h = 0u64;
    for b in name {
        h = (h * 31 + *b as u64) % (1 << 32);
    }
    h as u32
}

// Whether the line at a place gives a label of that name.
fn is_given(text: &[u8], place: usize, name: &[u8]) -> bool
    requires { place ≤ length text.now }
    ensures { result ≡ gives name.now (hear (line_at text.now place)) }
{
    let rest = &text[place..];
    let n = line_length(rest);
    read(&rest[..n]).gives(name)
}
