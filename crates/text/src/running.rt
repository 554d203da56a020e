// What a text comes to, run and printed. All of it is put into one output, lent down: what is as large as that or a text is made once.
ghost use Rattle.std.specs.Prelude.{◌≡◌, ◌||◌, [], ◌≤◌, eqb, length, Err};
ghost use Rattle.arrayvec.specs.ArrayVec.{array_vec_len};
ghost use Rattle.refusals.specs.Broken.{bad_program_length};
ghost use Rattle.loader.specs.Load.{◌otherwise◌, refused_if};
ghost use Rattle.loader.specs.declared.Refusal.TheVariants.{ProgramLength, MemoryLength};
ghost use Rattle.call.specs.Run.{run_outcome};
ghost use Rattle.text.specs.Output.{Unread, Loads, Runs, said_in, call_of, too_much, printed_of, printed, shown_of};

use crate::Shown;
use crate::registers::put_registers;
use crate::rows::push_answer;
use arrayvec::ArrayVec;
use lines::reading::{BadLine, Text, read_into};
use loader::{Answer, Refusal, bad_program_length, load_with};
use sandbox::vex_run;
use word::number::word_at;

// 16, and the line.
fn unread(out: &mut Shown, line: usize)
    requires { out.old.items ≡ [] }
    ensures is { out.new.items ≡ printed_of (Unread line) }
    ensures fits { array_vec_len out.new ≤ 4341 }
{
    push_answer(
        out,
        Answer {
            number: 16,
            count: 0,
            place: line as u64,
        },
    );
}

// 2, for a memory that is too long: the program's size comes first.
fn sizes(program: &[u8]) -> Result<(), Refusal>
    ensures { result ≡ refused_if (bad_program_length program.now) ProgramLength otherwise Err MemoryLength }
{
    if bad_program_length(program) {
        return Err(Refusal::ProgramLength);
    }
    Err(Refusal::MemoryLength)
}

// A memory that is too long, refused.
fn refused(out: &mut Shown, text: &Text)
    requires { out.old.items ≡ [] }
    ensures is { let t = said_in text.now in out.new.items ≡ printed_of (Loads (too_much t.table t.program)) }
    ensures fits { array_vec_len out.new ≤ 4341 }
{
    let table = text.table.as_slice();
    let program = text.program.as_slice();
    push_answer(out, load_with(sizes(program), table, program).into());
}

// A run that paused or stopped, and was neither refused nor at fault.
fn went_on(number: u32) -> bool
    ensures { result ≡ (eqb number 0 || eqb number 255) }
{
    matches!(number, 0 | 255)
}

// Line 1, and the registers if the run paused or stopped.
fn ended(out: &mut Shown, number: u32, image: &[u8; 2888], room: &[u8; 12])
    requires { out.old.items ≡ [] }
    ensures is { out.new.items ≡ printed_of (Runs (record { result = number; state = image.now; memory = []; room = room.now })) }
    ensures fits { array_vec_len out.new ≤ 4341 }
{
    push_answer(
        out,
        Answer {
            number,
            count: word_at(room, 4) as u64,
            place: word_at(room, 8) as u64,
        },
    );
    if went_on(number) {
        put_registers(out, image);
    }
}

// A run from a state and a memory of zeros, without landing bytes.
fn ran(out: &mut Shown, text: &Text)
    requires memory { text.now.memory ≤ 16384 }
    requires empty { out.old.items ≡ [] }
    ensures is { out.new.items ≡ printed_of (Runs (run_outcome (call_of (said_in text.now)))) }
    ensures fits { array_vec_len out.new ≤ 4341 }
{
    let mut image = [0u8; 2888];
    let mut bytes = [0u8; 16384];
    let mut room = [0u8; 12];
    let number = vex_run(
        text.table.as_slice(),
        text.program.as_slice(),
        &mut image,
        &mut bytes[..text.memory as usize],
        &[],
        text.n,
        &mut room,
    );
    ended(out, number, &image, &room);
}

// All of the output. Not inlined, so that show's output is not zeroed twice.
#[inline(never)]
fn print(out: &mut Shown, input: &[u8])
    requires { out.old.items ≡ [] }
    ensures is { out.new.items ≡ printed input.now }
    ensures fits { array_vec_len out.new ≤ 4341 }
{
    if 32768 < input.len() {
        unread(out, 0);
        return;
    }
    let mut text = Text {
        table: ArrayVec::new(),
        memory: 0,
        n: 0,
        program: ArrayVec::new(),
    };
    match read_into(input, &mut text) {
        Err(BadLine(line)) => unread(out, line),
        Ok(()) if 16384 < text.memory => refused(out, &text),
        Ok(()) => ran(out, &text),
    }
}

// Reads a text, runs it and prints what it comes to.
pub fn show(input: &[u8]) -> Shown
    ensures { (result ≡ shown_of input.now) × (length result.items ≤ 4341) }
{
    let mut out = ArrayVec::new();
    print(&mut out, input);
    out
}
