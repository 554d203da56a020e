// A turn of the run's loop: one instruction, gathered from its operations, then written.
#![tactic(auto)]

ghost use Rattle.std.specs.Prelude.{◌≡◌, true, false, ℕ, ◌*◌, ◌≤◌, ◌<◌};
ghost use Rattle.word.specs.Bytes.{words};
ghost use Rattle.memory.specs.Memory.{any_share};
ghost use Rattle.ticks.specs.Ticks.{views, Freed};
ghost use Rattle.turn.specs.Turn.{situation_at, beside, Runs, Running, links, is_lost, any_late, goal_of, link_after, halt_of, Turned};

use gather::{Before, Course, Scratch, Seen};
use isa::stretch::cut;
use isa::{Count, Delays, Place};
use memory::{Store, shared, store_all};
use ticks::Registers;
use vliw::{Ending, Fault};

// The link, and whether an instruction starts there: asked when a call of run begins, and true after a call, so that no return asks again. The
// place is the state's, and is kept also where none starts there.
#[derive(Clone, Copy)]
pub struct Link {
    pub place: Place,
    pub starts: bool,
}

// Where a run stands: before the instruction at a place, with so many landing bytes used, a tick from which on no register is busy, and a link.
#[derive(Clone, Copy)]
pub struct Point {
    pub place: Place,
    pub used: usize,
    pub free: Count,
    pub link: Link,
}

// What a run goes by, and never writes.
#[derive(Clone, Copy)]
pub struct Given<'a> {
    pub program: &'a [u8],
    pub landing: &'a [u8],
    pub delays: Delays,
}

// In one instruction 11 comes first, also of a call or a return, which reads every register; a stop has no company; then 17; then the first
// of 12 and 13; then 14.
fn against(
    s: Seen,
    at: Point,
    t: Count,
    registers: &Registers,
    stores: &[Store],
) -> Result<(), Ending>
    requires { Freed t.0 at.free.0 registers.now.all }
    ensures { result ≡ halt_of s (any_late t.0 registers.now.all) at.link (any_share stores.now) }
{
    if s.busy {
        return Err(Ending::Faulted(Fault::InFlight));
    }
    if matches!(s.course, Course::Stop) {
        return Err(Ending::Stopped);
    }
    if links(s.course) && registers.any_late(at.free, t) {
        return Err(Ending::Faulted(Fault::InFlight));
    }
    if lost(s.course, at.link) {
        return Err(Ending::Faulted(Fault::BadLink));
    }
    if let Some(f) = s.fault {
        return Err(Ending::Faulted(f));
    }
    if shared(stores) {
        return Err(Ending::Faulted(Fault::StoresClash));
    }
    Ok(())
}

// A call or a return.
fn links(course: Course) -> bool
    ensures { result ≡ links course }
{
    matches!(course, Course::Call | Course::Back)
}

// It goes back to the link, and no instruction starts there.
fn lost(course: Course, link: Link) -> bool
    ensures { result ≡ is_lost course link }
{
    matches!(course, Course::Back) && !link.starts
}

// Where an instruction that does not stop goes on.
fn goal(course: Course, place: Place, end: Place, link: Link) -> Place
    ensures { result ≡ goal_of course place end link }
{
    match course {
        Course::Open | Course::Stop => end,
        Course::Set | Course::Call => place,
        Course::Back => link.place,
    }
}

// The link after it: a call sets it to the place after its instruction.
fn link_after(course: Course, link: Link, end: Place) -> Link
    ensures { result ≡ link_after course link end }
{
    match course {
        Course::Call => Link {
            place: end,
            starts: true,
        },
        Course::Open | Course::Stop | Course::Set | Course::Back => link,
    }
}

impl Given<'_> {
    // One instruction, at tick t. Nothing but scratch is written before it is known to go on.
    pub fn step(
        &self,
        t: Count,
        at: Point,
        memory: &mut [u8],
        registers: &mut Registers,
        scratch: &mut Scratch,
    ) -> Result<Point, Ending>
        requires runs { Runs self.now.delays (words self.now.program.now) }
        requires running { Running t.0 (words self.now.program.now) at registers.old.all }
        requires t_bound { (t.0 < 4294967296) × (at.used ≤ 64 * t.0) }
        ensures { Turned self.now.delays (words self.now.program.now) self.now.landing.now t.0 at
            (situation_at at.place.0 (views t.0 registers.old.all) (beside memory.old at.link) self.now.landing.now at.used)
            result registers.new.all memory.new }
    {
        let stretch = cut(self.program, at.place);
        let end = Place(at.place.0 + stretch.len() / 4);
        let before = Before {
            registers,
            memory,
            delays: self.delays,
            t,
            flying: t < at.free,
            end,
        };
        let s = before.collect(stretch, scratch);
        against(s, at, t, registers, scratch.stores())?;
        let results = scratch.results();
        let free = registers.commit(results, self.landing, at.used, at.free, Count(t.0 + 1));
        store_all(memory, scratch.stores());
        Ok(Point {
            place: goal(s.course, s.place, end, at.link),
            used: at.used + results.len(),
            free,
            link: link_after(s.course, at.link, end),
        })
    }
}
