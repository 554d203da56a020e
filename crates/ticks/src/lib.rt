// The registers in the run's loop: ticks in place of counts, so that nothing is stored when time passes.
#![tactic(auto)]

ghost use Rattle.std.specs.Prelude.{◌≡◌, ◌≢◌, ◌∷◌, [], ℕ, ◌+◌, ◌-◌, ◌≤◌, ◌<◌, ltb, length, drop, List};
ghost use Rattle.std.specs.List.{list_any};
ghost use Rattle.word.specs.Lists.{any_below};
ghost use Rattle.vliw.specs.Cell.{at, put, puts, choose};
ghost use Rattle.vliw.specs.Machine.{writes};
ghost use Rattle.machine.specs.State.{cell_of, registers_of, Sized};
ghost use Rattle.ticks.specs.declared.Register.{Register};
ghost use Rattle.ticks.specs.Ticks.{register_at, ready_ticks, view_of, views, Bank, Freed, latest, Fit, dests_in, values_in, Results, Clear, Asked, InTime, Chosen};

use isa::{Count, Place};
use machine::{Cell, State};

// A register: the last result made, the value that it replaced, and the ticks at which busy reaches 0 and at which the result lands.
#[derive(Clone, Copy, Default)]
pub struct Register {
    pub value: u32,
    pub old: u32,
    pub ready: u64,
    pub land: u64,
}

// The registers of all clusters, general, then branch.
#[derive(Default, Drop)]
pub struct Registers {
    pub all: [Register; 288],
}

// A result of an instruction.
#[derive(Clone, Copy, Default)]
pub struct Made {
    pub register: u32,
    pub value: u32,
    pub delay: u64,
}

// The later of two ticks.
fn later(a: Count, b: Count) -> Count
    ensures { result.0 ≡ latest a.0 (b.0 ∷ []) }
{
    Count(a.0.max(b.0))
}

// How many ticks are left at tick t until tick `until`.
fn left(until: u64, t: Count) -> u8
    requires { until ≤ t.0 + 7 }
    ensures { result ≡ until - t.0 }
{
    until.saturating_sub(t.0) as u8
}

// The landing of a result of this delay that takes landing byte i, if there is one.
fn chosen(landing: &[u8], i: usize, delay: u64) -> u64
    requires { 0 < delay }
    ensures { result ≡ choose delay (drop i landing.now) }
{
    match landing.get(i) {
        Some(byte) => *byte as u64 % delay,
        None => delay - 1,
    }
}

impl Register {
    // As a call begins, at tick 0.
    fn entered(c: Cell) -> Register
        requires { c.landing ≡ 0 → c.waiting ≡ 0 }
        ensures { view_of 0 result ≡ cell_of c }
    {
        Register {
            value: if c.landing == 0 { c.value } else { c.waiting },
            old: c.value,
            ready: c.busy as u64,
            land: c.landing as u64,
        }
    }

    // As a call ends, at tick t.
    fn left(self, t: Count) -> Cell
        requires { (self.land ≤ self.ready) × (self.ready ≤ t.0 + 7) }
        ensures { cell_of result ≡ view_of t.0 self }
    {
        let flying = t.0 < self.land;
        Cell {
            value: if flying { self.old } else { self.value },
            waiting: if flying { self.value } else { 0 },
            busy: left(self.ready, t),
            landing: left(self.land, t),
        }
    }
}

impl Registers {
    // The last result made for register r: its value, unless it is in flight.
    pub fn made(&self, r: u32) -> u32
        requires { r < 288 }
        ensures { result ≡ (register_at self.now.all r).value }
    {
        self.all[r as usize].value
    }

    // Whether register r is busy.
    pub fn late(&self, r: u32, t: Count) -> bool
        requires { r < 288 }
        ensures { result ≡ ltb t.0 (register_at self.now.all r).ready }
    {
        t.0 < self.all[r as usize].ready
    }

    // Whether any register is busy. Only a fault can come of going through them: from tick `free` on none is.
    pub fn any_late(&self, free: Count, t: Count) -> bool
        requires { Freed t.0 free.0 self.now.all }
        ensures { result ≡ any_below (λ r. ltb t.0 (register_at self.now.all r).ready) 288 }
    {
        // Freed and Bank are facts at a tick, which goes on, so that no invariant of the registers can say them
        t.0 < free.0 && self.any_ready_after(t)
    }

    fn any_ready_after(&self, t: Count) -> bool
        ensures { result ≡ list_any (λ (r : Register). ltb t.0 r.ready) self.now.all }
    {
        self.all.iter().any(|r| t.0 < r.ready)
    }

    // From when on no register is busy, as a call begins.
    pub fn free_from(&self) -> Count
        ensures { result.0 ≡ latest 0 (ready_ticks self.now.all) }
    {
        let mut free = Count(0);
        for r in &self.all {
            free = later(free, Count(r.ready));
        }
        free
    }

    // A result, whose register has landed, that lands after so many ticks.
    #[tactic(auto, using(crate::proofs::Views::put_views))]
    fn put(&mut self, m: Made, landing: u64, t: Count)
        requires bank_2 { Bank t.0 self.old.all }
        requires m_bound { (m.register < 288) × (0 < m.delay) × (m.delay ≤ 8) × (landing < m.delay) × (t.0 ≤ 4294967296) × ((register_at self.old.all m.register).land ≤ t.0) }
        ensures bank { Bank t.0 self.new.all }
        ensures freed { (free : ℕ) → t.0 + (m.delay - 1) ≤ free → Freed t.0 free self.old.all → Freed t.0 free self.new.all }
        ensures elsewhere { (q : ℕ) → q ≢ m.register → register_at self.new.all q ≡ register_at self.old.all q }
        ensures is { views t.0 self.new.all
            ≡ put (record { reg = m.register; result = m.value; busy = m.delay - 1; landing = landing })
            (views t.0 self.old.all) }
    {
        let old = self.made(m.register);
        let busy = m.delay - 1;
        self.all[m.register as usize] = Register {
            value: m.value,
            old,
            ready: t.0 + busy,
            land: t.0 + landing,
        };
    }

    // The results of an instruction, in order, with the landings that `landing` gives them; and from when on none is busy.
    fn commit_by<F: Fn(usize, u64) -> u64>(
        &mut self,
        results: &[Made],
        landing: F,
        free: Count,
        t: Count,
    ) -> Count
        requires bank_2 { Bank t.0 self.old.all }
        requires freed_2 { Freed t.0 free.0 self.old.all }
        requires results { Results results.now }
        requires clear { Clear t.0 self.old.all (dests_in results.now) }
        requires t_bound { t.0 ≤ 4294967296 }
        requires asked { Asked (F.pre landing) results.now }
        requires in_time { InTime (F.post landing) results.now }
        ensures bank { Bank t.0 self.new.all }
        ensures freed { Freed t.0 result.0 self.new.all }
        ensures is { (bs : List ℕ) → Chosen (F.post landing) results.now bs → views t.0 self.new.all
            ≡ puts (writes (dests_in results.now) (values_in results.now) bs) (views t.0 self.old.all) }
    {
        let mut until = free;
        for (k, m) in results.iter().enumerate() {
            let d = landing(k, m.delay);
            self.put(*m, d, t);
            until = later(until, Count(t.0 + (m.delay - 1)));
        }
        until
    }

    // The results of an instruction, in order, the first with landing byte `used`; and from when on none is busy. Most calls lend few landing
    // bytes or none, so that the others are not asked for one by one.
    pub fn commit(
        &mut self,
        results: &[Made],
        landing: &[u8],
        used: usize,
        free: Count,
        t: Count,
    ) -> Count
        requires bank_2 { Bank t.0 self.old.all }
        requires freed_2 { Freed t.0 free.0 self.old.all }
        requires results { Results results.now }
        requires clear { Clear t.0 self.old.all (dests_in results.now) }
        requires t_bound { (t.0 ≤ 4294967296) × (used + length results.now < 18446744073709551616) }
        ensures bank { Bank t.0 self.new.all }
        ensures freed { Freed t.0 result.0 self.new.all }
        ensures is { views t.0 self.new.all
            ≡ puts (writes (dests_in results.now) (values_in results.now) (drop used landing.now)) (views t.0 self.old.all) }
    {
        if landing.len() <= used {
            self.commit_by(results, |_, delay| delay - 1, free, t)
        } else {
            self.commit_by(
                results,
                |k, delay| chosen(landing, used + k, delay),
                free,
                t,
            )
        }
    }

    // The registers as a call begins, at tick 0.
    pub fn enter(&mut self, s: &State)
        requires sized { Sized s.now }
        requires by_index { (r : ℕ) → r < 288 → Fit (at (registers_of s.now) r) }
        ensures bank { Bank 0 self.new.all }
        ensures is { views 0 self.new.all ≡ registers_of s.now }
    {
        // the general and the branch registers apart, so that the compiled loops don't ask which it is
        for r in 0..256 {
            self.all[r] = Register::entered(s.register(r));
        }
        for r in 256..288 {
            self.all[r] = Register::entered(s.register(r));
        }
    }

    // The state at tick t, at a place, with a link.
    pub fn leave(&self, t: Count, place: Place, link: Place) -> State
        requires { Bank t.0 self.now.all }
        ensures sized { Sized result }
        ensures at { (result.place ≡ place) × (result.link ≡ link) }
        ensures is { registers_of result ≡ views t.0 self.now.all }
    {
        let mut s = State::still(place, link);
        for (r, register) in self.all.iter().enumerate() {
            s.put(r, register.left(t));
        }
        s
    }
}
