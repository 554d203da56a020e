// The schedule check: a schedule is refused exactly if some path touches a result too soon.
#![tactic(auto)]

ghost use Rattle.word.specs.Bytes.{words};
ghost use Rattle.tables.specs.Bounds.{Bounds};
ghost use Rattle.loader.specs.Passed.{Passed};
ghost use Rattle.schedule.specs.Rule.{Says};

use arrayvec::ArrayVec;
use isa::program::following;
use isa::stretch::cut;
use isa::{Place, Table};
use late::{late_results, longest};
use reach::reach;
use touches::{stamp_touched, touches};

pub mod answers;
mod late;
mod touches;

// The lowest producer and, for it, the lowest consumer.
#[derive(Clone, Copy)]
pub struct TooSoon {
    pub producer: Place,
    pub consumer: Place,
}

// The verdict on a program that loads: the search ends at the first pair found.
pub fn check(table: Table, program: &[u8]) -> Result<(), TooSoon>
    requires bounds { Bounds table }
    requires passed { Passed table (words program.now) }
    ensures { Says table.delays (words program.now) result }
{
    let n = program.len() / 4;
    // Lent to each producer in turn, so that their room is filled once.
    let mut late = ArrayVec::new();
    let mut near = ArrayVec::new();
    let mut stamps = [0; 288];
    let mut p = Place(0);
    'producers: loop {
        if n <= p.0 {
            break Ok(());
        }
        late_results(table.delays, cut(program, p), &mut late);
        let most = longest(late.as_slice());
        if 1 < most {
            reach(program, p, most - 1, &mut near);
            'consumers: for q in near.as_slice() {
                stamp_touched(cut(program, q.place), q.place, &mut stamps);
                'registers: for r in late.as_slice() {
                    if q.steps < r.delay && touches(&stamps, q.place, r.register) {
                        break 'producers Err(TooSoon {
                            producer: p,
                            consumer: q.place,
                        });
                    }
                }
            }
        }
        p = following(program, p);
    }
}
