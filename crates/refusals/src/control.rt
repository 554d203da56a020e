// Refusal 8: targets, company and the last instruction, the lowest place first.
ghost use Rattle.std.specs.Prelude.{◌≡◌, true, not, ◌||◌, ◌&&◌, ◌<◌, length};
ghost use Rattle.word.specs.Bytes.{words};
ghost use Rattle.word.specs.Lists.{any};
ghost use Rattle.isa.specs.Lowest.{lowest};
ghost use Rattle.isa.specs.Control.{way_of, target_of, solitary};
ghost use Rattle.isa.specs.Program.{spots, spot_at, is_start, instruction_at};
ghost use Rattle.refusals.specs.Broken.{misses, alone, leaving, is_last, bad_control_at};

use isa::control::{controls, leaves, solitary, target, way};
use isa::program::is_start;
use isa::stretch::{before_all, cut, next_spot};
use isa::syllable::ends;
use isa::walk::spots;
use isa::{Place, Spot};

// A target is no instruction's first syllable.
fn misses(program: &[u8], target: Option<Place>) -> bool
    ensures { result ≡ misses (is_start (words program.now)) target }
{
    target.is_some_and(|t| !is_start(program, t))
}

// A syllable is the whole of its instruction.
fn alone(x: Spot) -> bool
    ensures { result ≡ alone x }
{
    x.first & x.last
}

// Whether one of an instruction's syllables never leads on.
fn any_leaves(stretch: &[u8]) -> bool
    ensures { result ≡ any leaving (spots (words stretch.now)) }
{
    spots(stretch).any(|x| leaves(way(x.syllable)))
}

// Where the last instruction starts.
fn last_start(program: &[u8]) -> Place
    requires { 0 < length (words program.now) }
    ensures { is_last (words program.now) result.0 ≡ true }
{
    for i in (1..program.len() / 4).rev() {
        if ends(isa::program::syllable(program, Place(i - 1))) {
            return Place(i);
        }
    }
    Place(0)
}

// The instruction at a place is the last, and leads on.
fn runs_out(program: &[u8], at: Place, last: Place) -> bool
    requires { is_last (words program.now) last.0 ≡ true }
    ensures { let p = words program.now in result ≡ (is_last p at.0 && not (any leaving (instruction_at p at.0))) }
{
    at == last && !any_leaves(cut(program, last))
}

// A target is no start, or what is to stand alone has company. What is not control has neither.
fn strays(program: &[u8], x: Spot) -> bool
    ensures { let w = way_of x.syllable in result ≡ (misses (is_start (words program.now)) (target_of w) || (solitary w && not (alone x))) }
{
    let w = way(x.syllable);
    if !controls(w) {
        return false;
    }
    misses(program, target(w)) | (solitary(w) & !alone(x))
}

// 8, of the spot x at a place.
fn is_bad_control(program: &[u8], at: Place, x: Spot, last: Place) -> bool
    requires x_value { x ≡ spot_at (words program.now) at.0 }
    requires last_value { is_last (words program.now) last.0 ≡ true }
    ensures { result ≡ bad_control_at (words program.now) at.0 }
{
    strays(program, x) || runs_out(program, at, last)
}

// 8: a target is no start, a stop or a return has company, or the last instruction has neither goto, stop nor return.
pub fn bad_control(program: &[u8]) -> Option<Place>
    requires { 0 < length (words program.now) }
    ensures { result ≡ lowest (bad_control_at (words program.now)) (length (words program.now)) }
{
    let last = last_start(program);
    let mut x = before_all();
    for i in 0..program.len() / 4 {
        let at = Place(i);
        x = next_spot(x, isa::program::syllable(program, at));
        if is_bad_control(program, at, x, last) {
            return Some(at);
        }
    }
    None
}
