// The lowest fault of a text, line by line.
ghost use Rattle.std.specs.Prelude.{◌≡◌, length};
ghost use Rattle.source.specs.Labels.{given_by};
ghost use Rattle.source.specs.Reader.{hear_all};
ghost use Rattle.source.specs.Seek.{heard_in, walk_of};
ghost use Rattle.evaluation.specs.Evaluated.{labels_of};
ghost use Rattle.assembler.specs.Faults.{syllable_in, does_by, verdict};
ghost use Rattle.assembler.specs.Passes.{elsewhere, number_by, number_at, number_of_wrong, wrong_by, number_in, verdict_in, Within};

use evaluation::labels::Labels;
use evaluation::syllables::syllable;
use source::each_line::Lines;
use source::reading::ReadLine;
use source::walking::{Walk, is_refused, step};
use values::Fault;

// What is wrong with a line.
#[derive(Clone, Copy, PartialEq, Eq)]
pub enum Wrong {
    // 18: the line itself, or where it stands
    Line,
    // 19: its label is given above, or no line gives one that it uses
    Label,
    // 20: a value is outside the range or its field
    Value,
}

impl Wrong {
    pub fn number(self) -> u32
        ensures { result ≡ number_of_wrong self }
    {
        match self {
            Wrong::Line => 18,
            Wrong::Label => 19,
            Wrong::Value => 20,
        }
    }
}

impl From<Fault> for Wrong {
    ghost from_gives = { λ fault wrong. wrong ≡ wrong_by fault };

    fn from(fault: Fault) -> Wrong {
        match fault {
            Fault::Missing => Wrong::Label,
            Fault::Outside => Wrong::Value,
        }
    }
}

// The lowest line with a fault, from 0, and what is wrong with it.
#[derive(Clone, Copy, PartialEq, Eq)]
pub struct LowestFault {
    pub line: usize,
    pub wrong: Wrong,
}

// Whether the label of a line is first given elsewhere.
fn is_elsewhere(l: &ReadLine<'_>, place: usize, labels: &Labels<'_>) -> bool
    ensures { result ≡ elsewhere labels.now.text.now place (given_by (heard_in l.now.bytes.now l.now.line)) }
{
    let Some(name) = l.name() else { return false };
    match labels.find(name) {
        Some(given) => given.place != place,
        None => true,
    }
}

// Whether the operation of a line has its syllable.
fn check_syllable(l: &ReadLine<'_>, labels: &Labels<'_>) -> Result<(), Wrong>
    ensures { number_in result ≡ number_by (syllable_in (labels_of labels.now.text.now) (does_by (heard_in l.now.bytes.now l.now.line))) }
{
    let Some(o) = l.line.operation() else {
        return Ok(());
    };
    syllable(l.bytes, o, labels)?;
    Ok(())
}

// Whether the line at a place is without a fault.
fn check(l: &ReadLine<'_>, place: usize, w: Walk, labels: &Labels<'_>) -> Result<(), Wrong>
    ensures { number_in result ≡ number_at labels.now.text.now (walk_of w) place (heard_in l.now.bytes.now l.now.line) }
{
    if is_refused(w, l.line) {
        return Err(Wrong::Line);
    }
    if is_elsewhere(l, place, labels) {
        return Err(Wrong::Label);
    }
    check_syllable(l, labels)
}

// The lowest line with a fault, and its lowest number; or how many syllables there are.
pub fn judge(labels: &Labels<'_>) -> Result<usize, LowestFault>
    ensures { (verdict_in result ≡ verdict (hear_all labels.now.text.now)) × Within (length labels.now.text.now) (verdict_in result) }
{
    let mut w = Walk::START;
    for (line, (place, l)) in Lines::from_place(labels.text, 0).enumerate() {
        if let Err(wrong) = check(&l, place, w, labels) {
            return Err(LowestFault { line, wrong });
        }
        w = step(w, l.line);
    }
    Ok(w.count)
}
