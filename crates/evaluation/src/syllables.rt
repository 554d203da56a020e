// The syllable of an operation, with the value of its expression.
ghost use Rattle.std.specs.Prelude.{◌≡◌, ◌+◌, ◌^◌, ◌≤◌, ◌<◌, length, IfSome};
ghost use Rattle.operations.specs.Meaning.{in_field, syllable_of};
ghost use Rattle.operations.specs.Parsed.{field_of, breadth, said_by};
ghost use Rattle.evaluation.specs.Evaluated.{labels_of, Below};

use crate::labels::Labels;
use crate::readers::expression;
use operations::{Field, Operation, Syllable};
use values::{Fault, Value};

// How far below 0 a field's values go, and how many there are.
fn below(field: Field) -> u64
    ensures { (result ≡ (field_of field).below) × (result ≤ 2048) }
{
    match field {
        Field::Immediate => 1 << 10,
        Field::Offset => 1 << 11,
        Field::Goto | Field::Branch | Field::Call => 0,
    }
}

fn size(field: Field) -> u64
    ensures { (result ≡ 2 ^ (field_of field).width) × (0 < result) × (result ≤ 16777216) }
{
    match field {
        Field::Immediate => 1 << 11,
        Field::Offset => 1 << 12,
        Field::Goto => 1 << 24,
        Field::Branch => 1 << 21,
        Field::Call => 1 << 18,
    }
}

// A value in its field.
fn in_field(bits: u32, field: Field, v: Value) -> Syllable
    requires { bits + 2 ^ (field_of field).width ≤ 2 ^ 30 }
    ensures { (result ≡ in_field bits (field_of field) v) × Below result }
{
    let n = v? as u64;
    let up = n + below(field);
    if up < 1 << 31 {
        return Err(Fault::Outside);
    }
    let many = size(field);
    if (1 << 31) + many <= up {
        return Err(Fault::Outside);
    }
    Ok(bits + (n % many) as u32)
}

// The syllable of an operation of a line.
pub fn syllable(line: &[u8], o: Operation, labels: &Labels<'_>) -> Syllable
    requires { IfSome o.asks (λ a. a.1 ≤ length line.now) × (o.bits < 2 ^ 30) × (o.bits + breadth o.asks ≤ 2 ^ 30) }
    ensures { (result ≡ syllable_of (labels_of labels.now.text.now) (said_by line.now o)) × Below result }
{
    let Some((field, from)) = o.asks else {
        return Ok(o.bits);
    };
    match expression(line, labels, from, 16) {
        Some((_, v)) => in_field(o.bits, field, v),
        None => Ok(o.bits),
    }
}
