// One pass over an instruction's operations: everything is read, and nothing is written but scratch.
#![tactic(auto)]

ghost use Rattle.std.specs.Prelude.{◌≡◌, true, false, [], ◌∷◌, ◌++◌, map, ℕ, ◌+◌, ◌≤◌, ◌<◌, length, None};
ghost use Rattle.word.specs.Bytes.{words, number_at};
ghost use Rattle.ops.specs.Value.{loaded, stored};
ghost use Rattle.ops.specs.Value.{value as value_of};
ghost use Rattle.isa.specs.Syllable.{is_mem};
ghost use Rattle.isa.specs.Control.{turn_of};
ghost use Rattle.isa.specs.Decode.{decode};
ghost use Rattle.isa.specs.Program.{spots, operation};
ghost use Rattle.isa.specs.Touch.{dests};
ghost use Rattle.memory.specs.Memory.{size_of};
ghost use Rattle.memory.specs.Held.{Within};
ghost use Rattle.machine.specs.Instruction.{address_of, value_in, Next, next_by};
ghost use Rattle.ticks.specs.Ticks.{Results};
ghost use Rattle.gather.specs.Gather.{Own, Timely, Flying, Formed, is_turn, turn_in, named_late, op_late, fire_at, dest_in, values_by, Noted, Holds, Acts, Does, Gathered};
ghost use Rattle.gather.specs.declared.Course.TheVariants.{Open};
ghost use Rattle.gather.specs.declared.Scratch.{Scratch};

use isa::control::turn;
use isa::stretch::{opened, opened_by, syllable};
use isa::syllable::opcode;
use isa::touch::delay;
use isa::{Count, Delays, Op, Place, Slot, Turn, decode};
use memory::Store;
use std::marker::Model;
use ticks::{Made, Registers};
use vliw::Fault;

// Where the operations so far go on: that is open, they stop, it is set to a place, they call there, or go back to the link. Apart from the
// place, since copying isa's Turn once for each operation makes the loop twice as slow (docs/DECISIONS.md).
#[derive(Clone, Copy)]
pub enum Course {
    Open,
    Stop,
    Set,
    Call,
    Back,
}

// What the operations so far came to: whether one names a register in flight, and then nothing else counts; where the first that decides it
// goes on; and the first fault of their accesses. `busy` is asked once, after the walk: as an Option around the rest it would be opened at each
// operation.
#[derive(Clone, Copy)]
pub struct Seen {
    pub busy: bool,
    pub course: Course,
    pub fault: Option<Fault>,
    pub place: Place,
}

// At most N of a kind. Not the kit's ArrayVec, whose `clear` writes blanks over what it drops: with two calls of memset at each instruction
// the loops miss "not slower by 5 %" (docs/DECISIONS.md).
#[derive(Drop)]
struct Filled<T, const N: usize> {
    places: [T; N],
    count: usize,
}

impl<T, const N: usize> Model for Filled<T, N> {
    ghost use Rattle.std.specs.Prelude.{List, ◌≤◌, take};

    ghost Value = { List T };

    ghost view = { λ f. take f.count f.places };

    ghost invariant = { λ f. f.count ≤ N };
}

impl<T: Copy + Default, const N: usize> Filled<T, N> {
    fn new() -> Filled<T, N>
        ensures { result ≡ [] }
    {
        Filled {
            places: [T::default(); N],
            count: 0,
        }
    }

    #[inline(always)]
    fn clear(&mut self)
        ensures { self.new ≡ [] }
    {
        self.count = 0;
    }

    #[inline(always)]
    fn push(&mut self, x: T)
        requires { length self.old < N }
        ensures { self.new ≡ self.old ++ x ∷ [] }
    {
        self.places[self.count] = x;
        self.count += 1;
    }

    #[inline(always)]
    fn as_slice(&self) -> &[T]
        ensures { result.now ≡ self.now }
    {
        &self.places[..self.count]
    }
}

// The results and the stores of the operations so far.
#[derive(Drop)]
pub struct Scratch {
    results: Filled<Made, 64>,
    stores: Filled<Store, 32>,
}

// What an instruction finds, at tick t: all that it reads is as it stood before it. `flying`: whether a register may be in flight, which says
// nothing of the other fields. `end` follows it.
#[derive(Clone, Copy)]
pub struct Before<'a> {
    pub registers: &'a Registers,
    pub memory: &'a [u8],
    pub delays: Delays,
    pub t: Count,
    pub flying: bool,
    pub end: Place,
    pub ghost timely: { Timely delays },
    pub ghost idle: { Flying flying t.0 registers.now.all },
}

// The values of what an operation reads: s1, s2 or the immediate, and b.
#[derive(Clone, Copy)]
pub struct Operands {
    pub x: u32,
    pub y: u32,
    pub b: u32,
}

impl Scratch {
    pub fn new() -> Scratch
        ensures { (result.results ≡ []) × (result.stores ≡ []) }
    {
        Scratch {
            results: Filled::new(),
            stores: Filled::new(),
        }
    }

    pub fn results(&self) -> &[Made]
        ensures { result.now ≡ self.now.results }
    {
        self.results.as_slice()
    }

    pub fn stores(&self) -> &[Store]
        ensures { result.now ≡ self.now.stores }
    {
        self.stores.as_slice()
    }

    // One more result of the instruction.
    #[inline(always)]
    pub fn note(&mut self, m: Made)
        requires { length self.old.results < 64 }
        ensures results { self.new.results ≡ self.old.results ++ m ∷ [] }
        ensures stores { self.new.stores ≡ self.old.stores }
    {
        self.results.push(m);
    }

    // One more store of the instruction.
    #[inline(always)]
    pub fn note_store(&mut self, s: Store)
        requires { length self.old.stores < 32 }
        ensures stores { self.new.stores ≡ self.old.stores ++ s ∷ [] }
        ensures results { self.new.results ≡ self.old.results }
    {
        self.stores.push(s);
    }
}

impl Seen {
    // An operation with a register in flight does nothing.
    fn held(self) -> Seen
        ensures { result ≡ record { busy = true; course = self.course; fault = self.fault; place = self.place } }
    {
        Seen { busy: true, ..self }
    }

    // Going on by this turn, where that was open.
    fn aimed(self, turn: Turn) -> Seen
        requires { self.course ≡ Open }
        ensures same { (result.busy ≡ self.busy) × (result.fault ≡ self.fault) }
        ensures turn { turn_in result.course result.place ≡ turn }
    {
        match turn {
            Turn::Onward => self,
            Turn::Stops => Seen {
                course: Course::Stop,
                ..self
            },
            Turn::To(place) => Seen {
                course: Course::Set,
                place,
                ..self
            },
            Turn::Calls(place) => Seen {
                course: Course::Call,
                place,
                ..self
            },
            Turn::Back => Seen {
                course: Course::Back,
                ..self
            },
        }
    }
}

// In clauses stand what decoding says of an operation (`Formed`): it is isa's Op, and a type around it would put one more name before each of its
// fields; what scratch holds (`Results`, `Holds`), which is so of this memory, and scratch has none; and how far the numbers of registers and
// clusters go, which are isa's.
impl Before<'_> {
    // ---- registers

    // Whether register r of an Op is in flight, where 0 stands for none as in isa's Op: the compiler leaves the test out where a form has none.
    fn named_late(&self, r: u32) -> bool
        requires { r < 288 }
        ensures { result ≡ named_late self.now.t.0 self.now.registers.now.all r }
    {
        r != 0 && self.registers.late(r, self.t)
    }

    // Whether a register of the operation is in flight; where none can be, nothing is asked.
    #[tactic(auto, using(crate::proofs::Idle::idle_late))]
    fn late(&self, op: Op) -> bool
        requires formed { Formed op }
        ensures { result ≡ op_late self.now.t.0 self.now.registers.now.all op }
    {
        self.flying
            && (self.registers.late(op.s1, self.t)
                || self.registers.late(op.s2, self.t)
                || self.named_late(op.b)
                || self.named_late(op.stored)
                || self.registers.late(op.t, self.t)
                || self.named_late(op.carry))
    }

    fn operands(&self, op: Op) -> Operands
        requires { Formed op }
        ensures x { result.x ≡ (fire_at self.now.registers.now.all op).x }
        ensures y { result.y ≡ (fire_at self.now.registers.now.all op).y }
        ensures b { result.b ≡ (fire_at self.now.registers.now.all op).b }
    {
        let x = self.registers.made(op.s1);
        let s2 = self.registers.made(op.s2);
        let b = self.registers.made(op.b);
        Operands {
            x,
            y: if op.s2 == 0 { op.immediate } else { s2 },
            b,
        }
    }

    // ---- results

    // One more result of the operation, unless register r is 0.
    fn result(&self, opcode: u32, r: u32, v: u32, scratch: &mut Scratch)
        requires results { Results scratch.old.results }
        requires room { (length scratch.old.results < 64) × (r < 288) }
        ensures noted { Noted 1 scratch.old.results scratch.new.results (dest_in self.now.delays opcode r []) (value_in r v []) }
        ensures stores { scratch.new.stores ≡ scratch.old.stores }
    {
        if r == 0 {
            return;
        }
        let after = delay(self.delays, opcode, r);
        scratch.note(Made {
            register: r,
            value: v,
            delay: after,
        });
    }

    // The results of an operation that computes.
    fn compute(&self, op: Op, scratch: &mut Scratch)
        requires formed { Formed op }
        requires results { Results scratch.old.results }
        requires room { length scratch.old.results < 63 }
        ensures noted { let e = fire_at self.now.registers.now.all op in
            Noted 2 scratch.old.results scratch.new.results
            (dests self.now.delays (op ∷ [])) (values_by e (value_of op.opcode e.x e.y e.b)) }
        ensures stores { scratch.new.stores ≡ scratch.old.stores }
    {
        let o = self.operands(op);
        self.result(
            op.opcode,
            op.t,
            ops::value(op.opcode, o.x, o.y, o.b),
            scratch,
        );
        self.result(op.opcode, op.carry, ops::carry(o.x, o.y, o.b), scratch);
    }

    // An operation that computes.
    fn computes(&self, op: Op, s: Seen, scratch: &mut Scratch) -> Seen
        requires formed { Formed op }
        requires holds { Holds (length self.now.memory.now) scratch.old }
        requires room { (length scratch.old.results < 63) × (0 < op.opcode) × (op.opcode ≤ 51) }
        ensures { Does (op_late self.now.t.0 self.now.registers.now.all op) self.now.delays self.now.memory.now self.now.end.0 (fire_at self.now.registers.now.all op) s scratch.old result scratch.new }
    {
        if self.late(op) {
            return s.held();
        }
        self.compute(op, scratch);
        s
    }

    // A copy, which keeps its source.
    fn copies(&self, op: Op, s: Seen, scratch: &mut Scratch) -> Seen
        requires formed { Formed op }
        requires holds { Holds (length self.now.memory.now) scratch.old }
        requires room { (length scratch.old.results < 63) × (op.opcode ≡ 60) }
        ensures { Does (op_late self.now.t.0 self.now.registers.now.all op) self.now.delays self.now.memory.now self.now.end.0 (fire_at self.now.registers.now.all op) s scratch.old result scratch.new }
    {
        if self.late(op) {
            return s.held();
        }
        self.result(op.opcode, op.t, self.registers.made(op.s1), scratch);
        s
    }

    // ---- loads and stores

    // Where an access goes.
    fn address(&self, op: Op) -> u32
        requires { Formed op }
        ensures { result ≡ address_of (fire_at self.now.registers.now.all op) }
    {
        ops::address(self.registers.made(op.s1), op.offset)
    }

    // A load from a.
    fn load(&self, op: Op, a: u32, scratch: &mut Scratch)
        requires formed { Formed op }
        requires results { Results scratch.old.results }
        requires room { (length scratch.old.results < 64) × (size_of op.opcode + a ≤ length self.now.memory.now) }
        ensures noted { Noted 1 scratch.old.results scratch.new.results
            (dest_in self.now.delays op.opcode op.t [])
            (value_in op.t (loaded op.opcode (number_at (size_of op.opcode) a self.now.memory.now)) []) }
        ensures stores { scratch.new.stores ≡ scratch.old.stores }
    {
        self.result(
            op.opcode,
            op.t,
            memory::load(self.memory, op.opcode, a),
            scratch,
        );
    }

    // A store of n bytes to a.
    fn store(&self, op: Op, a: u32, n: u32, scratch: &mut Scratch)
        requires formed { Formed op }
        requires room { length scratch.old.stores < 32 }
        ensures is { scratch.new.stores
            ≡ scratch.old.stores ++ record { at = a; size = n; value = stored op.opcode (fire_at self.now.registers.now.all op).stored } ∷ [] }
        ensures results { scratch.new.results ≡ scratch.old.results }
    {
        scratch.note_store(Store {
            at: a,
            size: n,
            value: ops::stored(op.opcode, self.registers.made(op.stored)),
        });
    }

    // A load or a store where there was no fault before it.
    fn access(&self, op: Op, s: Seen, scratch: &mut Scratch) -> Seen
        requires formed { Formed op }
        requires holds { Holds (length self.now.memory.now) scratch.old }
        requires room { (length scratch.old.results < 63) × (length scratch.old.stores < 32) × (is_mem op.opcode ≡ true) × (s.fault ≡ None) }
        ensures { Acts self.now.delays self.now.memory.now self.now.end.0 (fire_at self.now.registers.now.all op) s scratch.old result scratch.new }
    {
        let n = memory::size(op.opcode);
        match memory::access_at(self.memory.len(), n, self.address(op)) {
            Err(fault) => Seen {
                fault: Some(fault),
                ..s
            },
            Ok(a) => {
                if op.opcode <= 56 {
                    self.load(op, a, scratch);
                } else {
                    self.store(op, a, n, scratch);
                }
                s
            }
        }
    }

    // A load or a store; after a fault nothing is asked of it.
    fn accesses(&self, op: Op, s: Seen, scratch: &mut Scratch) -> Seen
        requires formed { Formed op }
        requires holds { Holds (length self.now.memory.now) scratch.old }
        requires room { (length scratch.old.results < 63) × (length scratch.old.stores < 32) × (is_mem op.opcode ≡ true) }
        ensures { Does (op_late self.now.t.0 self.now.registers.now.all op) self.now.delays self.now.memory.now self.now.end.0 (fire_at self.now.registers.now.all op) s scratch.old result scratch.new }
    {
        if self.late(op) {
            return s.held();
        }
        match s.fault {
            Some(_) => s,
            None => self.access(op, s, scratch),
        }
    }

    // ---- where to go on

    // Where an operation goes, from where those before it do: the first that decides it does.
    fn decide(&self, op: Op, s: Seen) -> Seen
        requires { Formed op }
        ensures same { (result.busy ≡ s.busy) × (result.fault ≡ s.fault) }
        ensures next { (k : Next) → next_by (turn_in result.course result.place) k
            ≡ next_by (turn_in s.course s.place) (next_by (turn_of op.way (fire_at self.now.registers.now.all op).b self.now.end) k) }
    {
        match s.course {
            Course::Open => s.aimed(turn(op.way, self.registers.made(op.b), self.end)),
            Course::Stop | Course::Set | Course::Call | Course::Back => s,
        }
    }

    // A control operation.
    fn turns(&self, op: Op, s: Seen) -> Seen
        requires formed { Formed op }
        requires turn { is_turn op.opcode ≡ true }
        ensures { (a : Scratch) → Holds (length self.now.memory.now) a
            → Does (op_late self.now.t.0 self.now.registers.now.all op) self.now.delays self.now.memory.now self.now.end.0 (fire_at self.now.registers.now.all op) s a result a }
    {
        if self.late(op) {
            return s.held();
        }
        self.decide(op, s)
    }

    // ---- the pass

    // Syllable w of cluster c. It is decoded and done by the range of its opcode, so that the compiled code tests it once; by ifs in the order of
    // the opcodes, since by one match the loops miss "not slower by 5 %" (docs/DECISIONS.md). Opcode 0 names no register, so that nothing is asked.
    fn step(&self, c: u32, w: u32, s: Seen, scratch: &mut Scratch) -> Seen
        requires c_bound { c < 4 }
        requires holds { Holds (length self.now.memory.now) scratch.old }
        requires room { (length scratch.old.results < 63) × (length scratch.old.stores < 32) }
        ensures { Does (op_late self.now.t.0 self.now.registers.now.all (decode c w)) self.now.delays self.now.memory.now self.now.end.0 (fire_at self.now.registers.now.all (decode c w))
            s scratch.old result scratch.new }
    {
        let o = opcode(w);
        if o == 0 {
            return self.decide(decode::still(w), s);
        }
        if o <= 51 {
            return self.computes(decode::compute(c, w), s, scratch);
        }
        if o <= 59 {
            return self.accesses(decode::access(c, w), s, scratch);
        }
        if o <= 60 {
            return self.copies(decode::copy(c, w), s, scratch);
        }
        self.turns(decode::jump(c, w), s)
    }

    // All operations of the instruction of this stretch, and scratch holds their results and stores.
    pub fn collect(&self, stretch: &[u8], scratch: &mut Scratch) -> Seen
        requires own { Own (spots (words stretch.now)) }
        ensures { Gathered (op_late self.now.t.0 self.now.registers.now.all) (fire_at self.now.registers.now.all) self.now.delays
            self.now.memory.now self.now.end.0 (map operation (spots (words stretch.now))) result scratch.new }
    {
        scratch.results.clear();
        scratch.stores.clear();
        let mut s = Seen {
            busy: false,
            course: Course::Open,
            fault: None,
            place: self.end,
        };
        let mut clusters = 0;
        // by number: it is the slot that is asked for
        for j in 0..stretch.len() / 4 {
            let w = syllable(stretch, Slot(j));
            clusters = opened(clusters, w);
            s = self.step(opened_by(clusters) as u32, w, s, scratch);
        }
        s
    }
}
