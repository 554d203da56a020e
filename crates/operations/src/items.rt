// The items of an operation, one after another. Each function takes a line and a place in it, as `token_at` and `skip` do: the place alone goes on.
ghost use Rattle.std.specs.Prelude.{◌≡◌, ◌+◌, ◌*◌, ◌-◌, ◌^◌, ◌≤◌, ◌<◌, length, drop};
ghost use Rattle.tokens.specs.Tokens.{tokens};
ghost use Rattle.expressions.specs.Reader.{map_got};
ghost use Rattle.operations.specs.Table.{Item, either, far, source, item_of};
ghost use Rattle.operations.specs.Grammar.{Operand};
ghost use Rattle.operations.specs.Reader.{limit, own, own_either, of_any, read_mark, read_register, read_value, read_source, read_items};
ghost use Rattle.operations.specs.Parsed.{field_of, told};
ghost use Rattle.operations.specs.Code.{front_of, effect, scaled, in_place, Steps, most, StepsAs, joined_by, items_in, most_of, said_from, Gathered};

use crate::words::register_at;
use crate::{Field, Front, Operation, Step};
use expressions::skip;
use tokens::{Next, token_at};

impl Step {
    // A step that asks for no expression.
    fn plain(to: usize, adds: u32) -> Step
        ensures { result ≡ record { to = to; adds = adds; asks = None } }
    {
        Step {
            to,
            adds,
            asks: None,
        }
    }
}

fn mark_at(line: &[u8], at: usize, m: u8) -> Option<Step>
    requires { at ≤ length line.now }
    ensures { Steps line.now at (read_mark m) (effect (Item.mark m)) 0 result }
{
    match token_at(line, at) {
        Next::Mark(b, to) if b == m => Some(Step::plain(to, 0)),
        _ => None,
    }
}

// A register of a letter and a cluster, whose number is added `scale` times.
fn own_at(line: &[u8], at: usize, letter: u8, cluster: u32, scale: u32) -> Option<Step>
    requires { (at ≤ length line.now) × (scale ≤ 2 ^ 21) }
    ensures { Steps line.now at (read_register (own letter cluster) Operand.register) (scaled scale) ((limit letter - 1) * scale) result }
{
    let (to, r) = register_at(line, at)?;
    if r.letter != letter || r.cluster != cluster {
        return None;
    }
    Some(Step::plain(to, r.number * scale))
}

// A destination that decides between two opcodes.
fn either_at(line: &[u8], at: usize, cluster: u32) -> Option<Step>
    requires { at ≤ length line.now }
    ensures { Steps line.now at (read_register (own_either cluster) Operand.register) (effect either) (most either) result }
{
    let (to, r) = register_at(line, at)?;
    if r.cluster != cluster {
        return None;
    }
    let opcodes = match r.letter {
        b'r' => 0,
        b'b' => 0xa00_0000,
        _ => return None,
    };
    Some(Step::plain(to, r.number * 0x4_0000 + opcodes))
}

// Copy's source, of any cluster where none is named in front.
fn far_at(line: &[u8], at: usize, from: Option<u32>) -> Option<Step>
    requires { at ≤ length line.now }
    ensures { Steps line.now at (read_register (of_any from) Operand.register) (effect far) (most far) result }
{
    let (to, r) = register_at(line, at)?;
    if r.letter != b'r' || from.is_some_and(|c| c != r.cluster) {
        return None;
    }
    Some(Step::plain(to, r.number * 0x1000 + r.cluster))
}

// An expression in its field.
fn value_at(line: &[u8], at: usize, adds: u32, field: Field) -> Option<Step>
    requires { at ≤ length line.now }
    ensures { Steps line.now at read_value (in_place adds (field_of field)) (adds + 2 ^ (field_of field).width - 1) result }
{
    let to = skip(line, at)?;
    Some(Step {
        to,
        adds,
        asks: Some((field, at)),
    })
}

// The second source: a register, or an immediate and bit 11.
fn source_at(line: &[u8], at: usize, cluster: u32) -> Option<Step>
    requires { at ≤ length line.now }
    ensures { Steps line.now at (read_source cluster) (effect source) (most source) result }
{
    let Some((to, r)) = register_at(line, at) else {
        return value_at(line, at, 0x800, Field::Immediate);
    };
    if r.letter != b'r' || r.cluster != cluster {
        return None;
    }
    Some(Step::plain(to, r.number))
}

// The item of a letter of the table.
fn item_at(line: &[u8], at: usize, front: Front, k: u8) -> Option<Step>
    requires { at ≤ length line.now }
    ensures { StepsAs line.now at (front_of front.cluster front.from) (item_of k) result }
{
    let cluster = front.cluster;
    match k {
        b't' => own_at(line, at, b'r', cluster, 0x4_0000),
        b'1' => own_at(line, at, b'r', cluster, 0x1000),
        b'2' => own_at(line, at, b'r', cluster, 1),
        b'b' => own_at(line, at, b'b', cluster, 0x200),
        b'c' => own_at(line, at, b'b', cluster, 0x40),
        b'd' => own_at(line, at, b'b', cluster, 0x20_0000),
        b'e' => either_at(line, at, cluster),
        b'x' => far_at(line, at, front.from),
        b's' => source_at(line, at, cluster),
        b'l' => own_at(line, at, b'l', 0, 1),
        b'o' => value_at(line, at, 0, Field::Offset),
        b'g' => value_at(line, at, 0, Field::Goto),
        b'j' => value_at(line, at, 0, Field::Branch),
        b'k' => value_at(line, at, 0, Field::Call),
        _ => mark_at(line, at, k),
    }
}

// An item's bits and expression after what was gathered; the first expression counts. In its place, and only where there is one: with a copy of the
// whole for each item assemble took a tenth longer.
fn join(o: &mut Operation, s: Step)
    requires { o.old.bits + s.adds < 2 ^ 32 }
    ensures { o.new ≡ joined_by o.old s }
{
    o.bits += s.adds;
    if o.asks.is_none() && s.asks.is_some() {
        o.asks = s.asks;
    }
}

// The operands that a row's letters ask for, after the name.
pub fn operands(
    line: &[u8],
    at: usize,
    front: Front,
    row: &[u8],
    base: u32,
) -> Option<(usize, Operation)>
    requires { (at ≤ length line.now) × (base + 1 + most_of (items_in row.now) ≤ 2 ^ 30) }
    ensures { (told line.now result
        ≡ map_got (said_from front.cluster base (items_in row.now)) (read_items (front_of front.cluster front.from) (items_in row.now) (tokens (drop at line.now))))
        × Gathered line.now at front.cluster result }
{
    let mut p = at;
    let mut o = Operation {
        cluster: front.cluster,
        bits: base,
        asks: None,
    };
    for k in row {
        if *k == b' ' {
            return Some((p, o));
        }
        let s = item_at(line, p, front, *k)?;
        join(&mut o, s);
        p = s.to;
    }
    Some((p, o))
}
