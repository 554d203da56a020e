// The lines of a text, read in their order up to the first that is bad.
ghost use Rattle.std.specs.Prelude.{◌≡◌, [], ◌∷◌, ◌+◌, ◌≤◌, ◌++◌, length, IfSome, OnErr, MatchOption};
ghost use Rattle.word.specs.Bytes.{bytes};
ghost use Rattle.arrayvec.specs.ArrayVec.{array_vec_len};
ghost use Rattle.lines.specs.Lines.{newline, pieces, Broken, Holds, first_line, program_from, from_first};
ghost use Rattle.lines.specs.Items.{program_held, lines_held, reading_in, reading_of, single};

use crate::items::{Item, item_at, syllable_at};
use arrayvec::ArrayVec;

// The lowest line that is bad or missing.
#[derive(Clone, Copy)]
pub struct BadLine(pub usize);

// What a text says. So many bytes and syllables stand in 32,768 bytes at most.
#[derive(Drop)]
pub struct Text {
    pub table: ArrayVec<u8, 10923>,
    pub memory: u32,
    pub n: u32,
    pub program: ArrayVec<u8, 16384>,
}

// Line 1, its bytes put into `table`: what stands behind it. That the text is no longer is asked of what is lent, here and below.
#[tactic(auto, using(crate::proofs::Tables::table_steps))]
fn first_line<'a>(text: &'a [u8], table: &mut ArrayVec<u8, 10923>) -> Option<&'a [u8]>
    requires empty { table.old.items ≡ [] }
    requires fits { length text.now ≤ 32768 }
    ensures is { let line = first_line 2 (pieces newline text.now) in
        MatchOption result (line ≡ Broken) (λ rest. line ≡ Holds table.new.items (pieces newline rest.now)) }
    ensures shorter { IfSome result (λ rest. length rest.now ≤ length text.now) }
{
    let mut rest = text;
    while let Some((item, behind)) = item_at(rest, 2) {
        rest = behind;
        match item {
            Item::Inner(b) => table.push(b as u8),
            Item::Last(b) => {
                table.push(b as u8);
                return Some(rest);
            }
        }
    }
    None
}

// A line of one number: the number, and what stands behind the line.
#[tactic(auto, using(crate::proofs::Heads::single_steps))]
fn number_line(text: &[u8]) -> Option<(u32, &[u8])>
    ensures is { let line = single (first_line 8 (pieces newline text.now)) in
        MatchOption result (line ≡ Broken) (λ p. line ≡ Holds (p.0 ∷ []) (pieces newline p.1.now)) }
    ensures shorter { IfSome result (λ p. length p.1.now ≤ length text.now) }
{
    match item_at(text, 8)? {
        (Item::Last(v), rest) => Some((v, rest)),
        (Item::Inner(_), _) => None,
    }
}

fn push_word(program: &mut ArrayVec<u8, 16384>, w: u32)
    requires { array_vec_len program.old + 4 ≤ 16384 }
    ensures is { program.new.items ≡ program.old.items ++ bytes 4 w }
    ensures len { array_vec_len program.new ≡ array_vec_len program.old + 4 }
{
    for b in w.to_be_bytes() {
        program.push(b);
    }
}

// The lines from line 4 on, their syllables put into `program`.
#[tactic(auto, using(crate::proofs::Programs::program_steps))]
fn instructions(text: &[u8], program: &mut ArrayVec<u8, 16384>) -> Result<(), BadLine>
    requires empty { program.old.items ≡ [] }
    requires fits { length text.now ≤ 32768 }
    ensures { program_held result program.new.items ≡ program_from 4 (pieces newline text.now) }
{
    let mut line = 4usize;
    let mut rest = text;
    while !rest.is_empty() {
        let Some((item, behind)) = syllable_at(rest) else {
            return Err(BadLine(line));
        };
        rest = behind;
        match item {
            Item::Inner(w) => push_word(program, w),
            Item::Last(w) => {
                push_word(program, w);
                line += 1;
            }
        }
    }
    Ok(())
}

// All lines of a text, the bytes and syllables put into `table` and `program`: the memory's length, and n.
#[tactic(auto, using(crate::proofs::Heads::second_single, crate::proofs::Heads::third_single))]
fn all_lines(
    text: &[u8],
    table: &mut ArrayVec<u8, 10923>,
    program: &mut ArrayVec<u8, 16384>,
) -> Result<(u32, u32), BadLine>
    requires empty { (table.old.items ≡ []) × (program.old.items ≡ []) }
    requires fits { length text.now ≤ 32768 }
    ensures { lines_held result table.new.items program.new.items ≡ from_first (first_line 2 (pieces newline text.now)) }
{
    let rest = first_line(text, table).ok_or(BadLine(1))?;
    let (memory, rest) = number_line(rest).ok_or(BadLine(2))?;
    let (n, rest) = number_line(rest).ok_or(BadLine(3))?;
    instructions(rest, program)?;
    Ok((memory, n))
}

// What `read` finds, put into a text that has no bytes and no syllables: so nothing of its size is moved. On a bad line it stays as it was.
pub fn read_into(text: &[u8], into: &mut Text) -> Result<(), BadLine>
    requires empty { (into.old.table.items ≡ []) × (into.old.program.items ≡ []) }
    requires fits { length text.now ≤ 32768 }
    ensures is { reading_in result into.new ≡ reading_of (from_first (first_line 2 (pieces newline text.now))) }
    ensures same { OnErr result (into.new ≡ into.old) }
{
    match all_lines(text, &mut into.table, &mut into.program) {
        Ok((memory, n)) => {
            into.memory = memory;
            into.n = n;
            Ok(())
        }
        Err(bad) => {
            into.table.clear();
            into.program.clear();
            Err(bad)
        }
    }
}

// All lines of a text.
pub fn read(text: &[u8]) -> Result<Text, BadLine>
    requires { length text.now ≤ 32768 }
    ensures { result ≡ reading_of (from_first (first_line 2 (pieces newline text.now))) }
{
    let mut found = Text {
        table: ArrayVec::new(),
        memory: 0,
        n: 0,
        program: ArrayVec::new(),
    };
    read_into(text, &mut found)?;
    Ok(found)
}
