// What a text comes to, assembled and printed. All of it is put into one output, lent down: it is made once.
ghost use Rattle.std.specs.Prelude.{◌≡◌, [], ◌≤◌, length, take};
ghost use Rattle.arrayvec.specs.ArrayVec.{array_vec_len};
ghost use Rattle.word.specs.Bytes.{words};
ghost use Rattle.assembly.specs.Printed.{behind, syllable_rows, printed_by, printed, printed_in};

use crate::Printed;
use arrayvec::ArrayVec;
use isa::syllable::ends;
use loader::Answer;
use sandbox::vex_assemble;
use text::rows::{push_answer, push_field};
use word::number::word_at;

// What stands behind a syllable.
fn behind(s: u32) -> u8
    ensures { result ≡ behind s }
{
    if ends(s) { b'\n' } else { b' ' }
}

// The first `count` syllables of a program, or all that it has.
fn syllables(out: &mut Printed, program: &[u8; 16384], count: usize)
    requires { out.old.items ≡ [] }
    ensures is { out.new.items ≡ syllable_rows (take count (words program.now)) }
    ensures fits { array_vec_len out.new ≤ 36864 }
{
    for syllable in program.chunks_exact(4).take(count) {
        let s = word_at(syllable, 0);
        push_field(out, 8, s as u64, behind(s));
    }
}

// What a call of assemble left.
fn outcome(out: &mut Printed, number: u32, program: &[u8; 16384], room: &[u8; 12])
    requires { out.old.items ≡ [] }
    ensures is { out.new.items ≡ printed_by (record { result = number; program = program.now; room = room.now }) }
    ensures fits { array_vec_len out.new ≤ 36864 }
{
    let count = word_at(room, 4);
    if number == 0 {
        syllables(out, program, count as usize);
        return;
    }
    push_answer(
        out,
        Answer {
            number,
            count: count as u64,
            place: word_at(room, 8) as u64,
        },
    );
}

// All of the output.
fn put(out: &mut Printed, input: &[u8])
    requires { out.old.items ≡ [] }
    ensures is { out.new.items ≡ printed input.now }
    ensures fits { array_vec_len out.new ≤ 36864 }
{
    if 262144 < input.len() {
        push_answer(
            out,
            Answer {
                number: 16,
                count: 0,
                place: 0,
            },
        );
        return;
    }
    let mut program = [0u8; 16384];
    let mut room = [0u8; 12];
    let number = vex_assemble(input, &mut program, &mut room);
    outcome(out, number, &program, &room);
}

// Assembles a text and prints what it comes to.
pub fn print(input: &[u8]) -> Printed
    ensures { (result ≡ printed_in input.now) × (length result.items ≤ 36864) }
{
    let mut out = ArrayVec::new();
    put(&mut out, input);
    out
}
