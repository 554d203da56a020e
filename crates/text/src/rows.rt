// Lines of the output, put into a slice at a place, or pushed behind what a vector has.
ghost use Rattle.std.specs.Prelude.{◌≡◌, ◌+◌, ◌≤◌, ◌<◌, ◌++◌, length, replicate};
ghost use Rattle.std.proofs.lemmas.List.Edits.{sets};
ghost use Rattle.arrayvec.specs.ArrayVec.{array_vec_len};
ghost use Rattle.lines.specs.Digits.{digit, hex};
ghost use Rattle.text.specs.Rows.{field, fields, answer_row};

use arrayvec::ArrayVec;
use loader::Answer;

fn digit_byte(x: u64) -> u8
    requires { x < 16 }
    ensures { result ≡ digit x }
{
    if x < 10 {
        b'0' + x as u8
    } else {
        b'A' + (x as u8 - 10)
    }
}

// The low digits of `v`, from the last to the first. By hand, since no clause says that `write!` succeeds.
fn put_hex(out: &mut [u8], at: usize, digits: usize, v: u64)
    requires { at + digits ≤ length out.old }
    ensures { out.new ≡ sets out.old at (hex digits v) }
{
    let mut left = digits;
    let mut high = v;
    while 0 < left {
        left -= 1;
        out[at + left] = digit_byte(high % 16);
        high /= 16;
    }
}

pub fn put_field(out: &mut [u8], at: usize, digits: usize, v: u64, after: u8)
    requires { at + digits < length out.old }
    ensures { out.new ≡ sets out.old at (field digits v after) }
{
    put_hex(out, at, digits, v);
    out[at + digits] = after;
}

// Three numbers, of two, `digits` and eight digits.
pub fn put_fields(out: &mut [u8], at: usize, x: u64, digits: usize, y: u64, z: u64)
    requires { at + digits + 13 ≤ length out.old }
    ensures { out.new ≡ sets out.old at (fields x digits y z) }
{
    put_field(out, at, 2, x, b' ');
    put_field(out, at + 3, digits, y, b' ');
    put_field(out, at + digits + 4, 8, z, b'\n');
}

// Line 1.
pub fn put_answer(out: &mut [u8], a: Answer)
    requires { 21 ≤ length out.old }
    ensures { out.new ≡ sets out.old 0 (answer_row a) }
{
    put_fields(out, 0, a.number as u64, 8, a.count, a.place);
}

// Room for what is put next.
#[tactic(auto, using(crate::proofs::Puts::zero_laws))]
fn push_zeros<const N: usize>(out: &mut ArrayVec<u8, N>, count: usize)
    requires { array_vec_len out.old + count ≤ N }
    ensures is { out.new.items ≡ out.old.items ++ replicate count 0 }
    ensures len { array_vec_len out.new ≡ array_vec_len out.old + count }
{
    for _ in 0..count {
        out.push(0);
    }
}

// put_field, behind what is there.
pub fn push_field<const N: usize>(out: &mut ArrayVec<u8, N>, digits: usize, v: u64, after: u8)
    requires { array_vec_len out.old + digits < N }
    ensures is { out.new.items ≡ out.old.items ++ field digits v after }
    ensures len { array_vec_len out.new ≡ array_vec_len out.old + digits + 1 }
{
    let from = out.len();
    push_zeros(out, digits + 1);
    put_field(out.as_mut_slice(), from, digits, v, after);
}

// put_fields, behind what is there.
pub fn push_fields<const N: usize>(out: &mut ArrayVec<u8, N>, x: u64, digits: usize, y: u64, z: u64)
    requires { array_vec_len out.old + digits + 13 ≤ N }
    ensures is { out.new.items ≡ out.old.items ++ fields x digits y z }
    ensures len { array_vec_len out.new ≡ array_vec_len out.old + digits + 13 }
{
    let from = out.len();
    push_zeros(out, digits + 13);
    put_fields(out.as_mut_slice(), from, x, digits, y, z);
}

// Line 1, behind what is there.
pub fn push_answer<const N: usize>(out: &mut ArrayVec<u8, N>, a: Answer)
    requires { array_vec_len out.old + 21 ≤ N }
    ensures is { out.new.items ≡ out.old.items ++ answer_row a }
    ensures len { array_vec_len out.new ≡ array_vec_len out.old + 21 }
{
    push_fields(out, a.number as u64, 8, a.count, a.place);
}
