// What a producer reaches, breadth first: places in ascending order, each with the fewest nexts that lead there.
#![tactic(auto)]

ghost use Rattle.std.specs.Prelude.{◌≡◌, true, [], ◌∷◌, ◌≤◌, ◌<◌, IfOk, IfErr};
ghost use Rattle.std.specs.List.{insert};
ghost use Rattle.arrayvec.specs.ArrayVec.{array_vec_len};
ghost use Rattle.word.specs.Bytes.{words};
ghost use Rattle.isa.specs.Program.{is_start};
ghost use Rattle.reach.specs.Nexts.{nexts_at};
ghost use Rattle.reach.specs.Laid.{Laid};
ghost use Rattle.reach.specs.Near.{Ascending, Stands, Gap, Ordered, Joined, Reaches};

use arrayvec::ArrayVec;
use isa::control::nexts;
use isa::program::following;
use isa::stretch::cut;
use isa::{Nexts, Place};
use std::mem::replace;

// A place that is reached, and a number of nexts that lead there.
#[derive(Clone, Copy, Default)]
pub struct Near {
    pub place: Place,
    pub steps: usize,
}

// The index of place q, or the one where it would go.
fn search(near: &[Near], q: Place) -> Result<usize, usize>
    requires { Ascending near.now }
    ensures found { IfOk result (Stands near.now q.0) }
    ensures absent { IfErr result (Gap near.now q.0) }
{
    near.binary_search_by_key(&q.0, |n| n.place.0)
}

// Puts x in at an index, and carries what stands from there to the end one further. The vector's own `insert` would need memmove of the system.
fn put_in(near: &mut ArrayVec<Near, 256>, at: usize, x: Near)
    requires inside { at ≤ array_vec_len near.old }
    requires room { array_vec_len near.old < 256 }
    ensures { near.new.items ≡ insert near.old.items at x }
{
    let mut carried = x;
    for i in at..near.len() {
        carried = replace(&mut near[i], carried);
    }
    near.push(carried);
}

// Puts place q in, k nexts away, where it is not there yet.
#[tactic(auto, using(crate::proofs::Growing::joined_there))]
fn insert(near: &mut ArrayVec<Near, 256>, q: Place, k: usize)
    requires count_bound { array_vec_len near.old < 256 }
    requires ordered { Ordered near.old.items k }
    ensures { Joined (q.0 ∷ []) k near.old.items near.new.items }
{
    let x = Near { place: q, steps: k };
    if let Err(at) = search(near.as_slice(), q) {
        put_in(near, at, x);
    }
}

// Puts in the nexts of the instruction at a place, k nexts away.
fn expand(program: &[u8], at: Place, k: usize, near: &mut ArrayVec<Near, 256>)
    requires at_value { is_start (words program.now) at.0 ≡ true }
    requires ordered { Ordered near.old.items k }
    requires count_bound { array_vec_len near.old ≤ 254 }
    ensures { Joined (nexts_at (words program.now) at.0) k near.old.items near.new.items }
{
    match nexts(cut(program, at), following(program, at)) {
        Nexts::Nowhere => {}
        Nexts::One(t) => insert(near, t, k),
        Nexts::Two(t, u) => {
            insert(near, t, k);
            insert(near, u, k);
        }
    }
}

// What the instruction at p reaches by 1 .. most nexts.
pub fn reach(program: &[u8], p: Place, most: usize, near: &mut ArrayVec<Near, 256>)
    requires laid { Laid (words program.now) }
    requires p_value { is_start (words program.now) p.0 ≡ true }
    requires le_most { (1 ≤ most) × (most ≤ 7) }
    ensures { Reaches (nexts_at (words program.now)) p.0 most near.new.items }
{
    near.clear();
    expand(program, p, 1, near);
    'levels: for k in 1..most {
        let mut i = 0;
        // By index, since the list grows: what is put in before i moves the others up, so that none is passed over.
        'places: while i < near.len() {
            let n = near[i];
            if n.steps == k {
                expand(program, n.place, k + 1, near);
            }
            i += 1;
        }
    }
}
