// What a syllable in cluster c asks for.
ghost use Rattle.std.specs.Prelude.{◌≡◌, ℕ, ◌+◌, ◌≤◌, ◌<◌};
ghost use Rattle.isa.specs.Syllable.{bits, opcode};
ghost use Rattle.isa.specs.Register.{general, branch};
ghost use Rattle.isa.specs.Decode.{immediate_of, offset_of, two_to, decode};

use crate::syllable::{bits, holds, opcode, source, within};
use crate::{Destinations, Op, Way, control};
use word::field::widen;

// What names no register and no number, and goes along.
const NOTHING: Op = Op {
    opcode: 0,
    s1: 0,
    s2: 0,
    b: 0,
    stored: 0,
    immediate: 0,
    offset: 0,
    t: 0,
    carry: 0,
    way: Way::Along,
};

// The number of general register r of cluster c: register 0 is one for all clusters.
fn general(c: u32, r: u32) -> u32
    requires { (c < 4) × (r < 64) }
    ensures { result ≡ general c r }
{
    if r == 0 { 0 } else { c * 64 + r }
}

// The number of branch register r of cluster c.
fn branch(c: u32, r: u32) -> u32
    requires { (c < 4) × (r < 8) }
    ensures { result ≡ branch c r }
{
    256 + (c * 8 + r)
}

// The general register that the six bits from lo name.
fn general_at(c: u32, s: u32, lo: u32) -> u32
    requires { (c < 4) × (lo ≤ 26) }
    ensures { result ≡ general c (bits (lo + 5) lo s) }
{
    general(c, bits(s, lo + 5, lo))
}

// The branch register that the three bits from lo name.
fn branch_at(c: u32, s: u32, lo: u32) -> u32
    requires { (c < 4) × (lo ≤ 29) }
    ensures { result ≡ branch c (bits (lo + 2) lo s) }
{
    branch(c, bits(s, lo + 2, lo))
}

// Bits 10..0, signed.
pub fn immediate(s: u32) -> u32
    ensures { result ≡ immediate_of s }
{
    widen::<11>(bits(s, 10, 0))
}

// Bits 11..0, signed.
pub fn offset(s: u32) -> u32
    ensures { result ≡ offset_of s }
{
    widen::<12>(bits(s, 11, 0))
}

// s2 is a register or a number.
fn two(c: u32, s: u32, t: u32) -> Op
    requires { c < 4 }
    ensures { result ≡ two_to c s t }
{
    let op = Op {
        opcode: opcode(s),
        s1: general_at(c, s, 12),
        t,
        ..NOTHING
    };
    if holds(s, 11, 11, 0) {
        Op {
            s2: general_at(c, s, 0),
            ..op
        }
    } else {
        Op {
            immediate: immediate(s),
            ..op
        }
    }
}

// Opcodes 19 to 23: one operand, or a sum with its carry.
fn narrow(c: u32, s: u32) -> Op
    requires { (c < 4) × (19 ≤ opcode s) × (opcode s ≤ 23) }
    ensures { result ≡ decode c s }
{
    let op = Op {
        opcode: opcode(s),
        s1: general_at(c, s, 12),
        t: general_at(c, s, 18),
        ..NOTHING
    };
    if op.opcode == 23 {
        Op {
            s2: general_at(c, s, 0),
            b: branch_at(c, s, 9),
            carry: branch_at(c, s, 6),
            ..op
        }
    } else {
        op
    }
}

// Opcodes 1 to 51: what computes. The forms with s2 as a register or a number stand together, since most operations have them.
#[inline(always)]
pub fn compute(c: u32, s: u32) -> Op
    requires { (c < 4) × (0 < opcode s) × (opcode s ≤ 51) }
    ensures { result ≡ decode c s }
{
    // each range is inlined, since the run's loop decodes by it: called, an Op is built in memory, a fifth more machine instructions for adds
    let o = opcode(s);
    if within(19, 23, o) {
        return narrow(c, s);
    }
    match o {
        ..=39 => two(c, s, general_at(c, s, 18)),
        ..=49 => two(c, s, branch_at(c, s, 18)),
        _ => Op {
            opcode: o,
            s1: general_at(c, s, 12),
            s2: general_at(c, s, 0),
            b: branch_at(c, s, 9),
            t: general_at(c, s, 18),
            ..NOTHING
        },
    }
}

// Opcodes 52 to 59: loads and stores. A store reads the register that a load writes.
#[inline(always)]
pub fn access(c: u32, s: u32) -> Op
    requires { (c < 4) × (52 ≤ opcode s) × (opcode s ≤ 59) }
    ensures { result ≡ decode c s }
{
    let op = Op {
        opcode: opcode(s),
        s1: general_at(c, s, 12),
        offset: offset(s),
        ..NOTHING
    };
    let register = general_at(c, s, 18);
    if op.opcode <= 56 {
        Op { t: register, ..op }
    } else {
        Op {
            stored: register,
            ..op
        }
    }
}

// Opcode 60.
#[inline(always)]
pub fn copy(c: u32, s: u32) -> Op
    requires { (c < 4) × (opcode s ≡ 60) }
    ensures { result ≡ decode c s }
{
    Op {
        opcode: opcode(s),
        s1: general_at(source(s), s, 12),
        t: general_at(c, s, 18),
        ..NOTHING
    }
}

// Opcode 0.
#[inline(always)]
pub fn still(s: u32) -> Op
    requires { opcode s ≡ 0 }
    ensures { (c : ℕ) → result ≡ decode c s }
{
    Op {
        opcode: opcode(s),
        way: control::still(s),
        ..NOTHING
    }
}

// Opcodes 61 to 63.
#[inline(always)]
pub fn jump(c: u32, s: u32) -> Op
    requires { (c < 4) × (61 ≤ opcode s) }
    ensures { result ≡ decode c s }
{
    match opcode(s) {
        61 => Op {
            opcode: 61,
            way: control::goto(s),
            ..NOTHING
        },
        o => Op {
            opcode: o,
            b: branch_at(c, s, 21),
            way: control::fork(s),
            ..NOTHING
        },
    }
}

pub fn decode(c: u32, s: u32) -> Op
    requires { c < 4 }
    ensures { result ≡ decode c s }
{
    match opcode(s) {
        0 => still(s),
        ..=51 => compute(c, s),
        ..=59 => access(c, s),
        60 => copy(c, s),
        _ => jump(c, s),
    }
}

// What the operation writes its value to.
fn written(c: u32, s: u32) -> u32
    requires { c < 4 }
    ensures { result ≡ (decode c s).t }
{
    let o = opcode(s);
    if within(40, 49, o) {
        return branch_at(c, s, 18);
    }
    if o == 0 {
        return 0;
    }
    if o <= 56 {
        return general_at(c, s, 18);
    }
    if o == 60 { general_at(c, s, 18) } else { 0 }
}

// What addcg writes its carry to.
fn carried(c: u32, s: u32) -> u32
    requires { c < 4 }
    ensures { result ≡ (decode c s).carry }
{
    if opcode(s) == 23 {
        branch_at(c, s, 6)
    } else {
        0
    }
}

// The destinations alone, for who asks nothing else of the operation.
pub fn destinations(c: u32, s: u32) -> Destinations
    requires { c < 4 }
    ensures { result ≡ record { t = (decode c s).t; carry = (decode c s).carry } }
{
    Destinations {
        t: written(c, s),
        carry: carried(c, s),
    }
}
