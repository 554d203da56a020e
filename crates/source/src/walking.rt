// From line to line: which lines are refused with 18, and how far the text has come.
ghost use Rattle.std.specs.Prelude.{◌≡◌, true, false, List, ℕ, ◌+◌, ◌^◌, ◌≤◌, ◌<◌, is_some, IfSome};
ghost use Rattle.source.specs.Walk.{refused};
ghost use Rattle.source.specs.Walk.{operated as operatedBy, step as step_by};
ghost use Rattle.source.specs.Seek.{does_in, heard_in, walk_of, operates, FromFour};

use crate::reading::Line;
use operations::Operation;

#[derive(Clone, Copy)]
pub struct Walk {
    // syllables so far
    pub count: usize,
    // clusters that the open instruction has opened, 0 where none is open
    pub opened: u32,
}

impl Walk {
    pub const START: Walk = Walk {
        count: 0,
        opened: 0,
    };
}

// 18.
pub fn is_refused(w: Walk, l: Line) -> bool
    requires { FromFour l }
    ensures { (line : List ℕ) → result ≡ refused (walk_of w) (heard_in line l) }
{
    let Some(says) = l.says else { return true };
    if l.label.is_some() && 0 < w.opened {
        return true;
    }
    match says.operation {
        Some(o) => o.cluster + 1 < w.opened,
        None => says.ends && w.opened == 0,
    }
}

fn operated(w: Walk, operation: Option<Operation>) -> Walk
    requires { IfSome operation (λ o. o.cluster < 4) × (is_some operation ≡ true → w.count + 4 < 2 ^ 64) }
    ensures { ((line : List ℕ) → walk_of result ≡ operatedBy (walk_of w) (does_in line operation)) × (w.count ≤ result.count) × (result.count ≤ w.count + 4) × (is_some operation ≡ false → result.count ≡ w.count) }
{
    let Some(o) = operation else { return w };
    let idle = o.cluster.saturating_sub(w.opened);
    Walk {
        count: w.count + idle as usize + 1,
        opened: o.cluster + 1,
    }
}

pub fn step(w: Walk, l: Line) -> Walk
    requires { FromFour l × (operates l ≡ true → w.count + 4 < 2 ^ 64) }
    ensures { ((line : List ℕ) → walk_of result ≡ step_by (walk_of w) (heard_in line l)) × (w.count ≤ result.count) × (result.count ≤ w.count + 4) × (operates l ≡ false → result.count ≡ w.count) }
{
    let Some(says) = l.says else { return w };
    if is_refused(w, l) {
        return w;
    }
    let v = operated(w, says.operation);
    if says.ends {
        Walk { opened: 0, ..v }
    } else {
        v
    }
}
