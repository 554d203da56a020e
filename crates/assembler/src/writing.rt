// The syllables of a text, put into the program. The last one of an instruction is kept until it is known whether another follows.
ghost use Rattle.std.specs.Prelude.{◌≡◌, ◌+◌, ◌*◌, ◌-◌, ◌^◌, ◌≤◌, ◌<◌, ltb, length, IfSome};
ghost use Rattle.std.proofs.lemmas.List.Edits.{sets};
ghost use Rattle.word.specs.Choice.{pick};
ghost use Rattle.lines.specs.Lines.{word_bytes};
ghost use Rattle.source.specs.Reader.{hear_all};
ghost use Rattle.source.specs.Walk.{start, walked};
ghost use Rattle.source.specs.Seek.{does_in, heard_in, walk_of, OperationIn};
ghost use Rattle.evaluation.specs.Evaluated.{labels_of, Below};
ghost use Rattle.assembler.specs.Program.{nops, bits_of};
ghost use Rattle.assembler.specs.Program.{program as program_of};
ghost use Rattle.assembler.specs.Passes.{kept, fills, keeps, ending, adds, lastly};

use evaluation::labels::Labels;
use evaluation::syllables::syllable;
use operations::{Operation, Syllable};
use source::each_line::Lines;
use source::reading::ReadLine;
use source::walking::{Walk, is_refused, step};
use word::number::put_word;

// How many syllables are put, and the one that is kept.
#[derive(Clone, Copy)]
pub struct Put {
    pub out: usize,
    pub last: u32,
}

fn bits_of(s: Syllable) -> u32
    requires { Below s }
    ensures { (result ≡ bits_of s) × (result < 2 ^ 30) }
{
    s.unwrap_or(0)
}

// Puts the syllable that is kept, if an instruction is open: how many are put then. The program is lent by the C interface, and filled in its
// place.
fn put_kept(program: &mut [u8], out: usize, w: Walk, last: u32) -> usize
    requires { (out + length (kept (walk_of w) last)) * 4 ≤ length program.old }
    ensures { (program.new ≡ sets program.old (out * 4) (word_bytes (kept (walk_of w) last)))
        × (result ≡ out + length (kept (walk_of w) last)) }
{
    if w.opened == 0 {
        return out;
    }
    put_word(program, out * 4, last);
    out + 1
}

// Puts n nops, each of which opens a cluster.
fn put_nops(program: &mut [u8], out: usize, n: usize)
    requires { (out + n) * 4 ≤ length program.old }
    ensures { program.new ≡ sets program.old (out * 4) (word_bytes (nops n)) }
{
    for i in 0..n {
        put_word(program, (out + i) * 4, 1 << 30);
    }
}

fn opening(bits: u32, c: u32, opened: u32) -> u32
    requires { bits < 2 ^ 30 }
    ensures { (result ≡ bits + pick (ltb c opened) 0 (2 ^ 30)) × (result < 2 ^ 31) }
{
    if c < opened { bits } else { bits + (1 << 30) }
}

// Puts what an operation of a line puts, and keeps its syllable.
fn put_operation(
    line: &[u8],
    operation: Option<Operation>,
    w: Walk,
    p: Put,
    labels: &Labels<'_>,
    program: &mut [u8],
) -> Put
    requires within_line { IfSome operation (OperationIn line.now) }
    requires room { ((p.out + length (fills (walk_of w) p.last (does_in line.now operation))) * 4 ≤ length program.old) × (p.last < 2 ^ 31) }
    ensures { (program.new ≡ sets program.old (p.out * 4) (word_bytes (fills (walk_of w) p.last (does_in line.now operation))))
        × (result.out ≡ p.out + length (fills (walk_of w) p.last (does_in line.now operation)))
        × (result.last ≡ keeps (labels_of labels.now.text.now) (walk_of w) p.last (does_in line.now operation)) × (result.last < 2 ^ 31) }
{
    let Some(o) = operation else { return p };
    let bits = bits_of(syllable(line, o, labels));
    let out = put_kept(program, p.out, w, p.last);
    // a cluster without an operation below one that has some gets a nop
    let idle = o.cluster.saturating_sub(w.opened) as usize;
    put_nops(program, out, idle);
    Put {
        out: out + idle,
        last: opening(bits, o.cluster, w.opened),
    }
}

// Puts the kept syllable with bit 31, where an instruction ends: how many are put then.
fn put_end(program: &mut [u8], out: usize, ends: bool, last: u32) -> usize
    requires { ((out + length (ending ends last)) * 4 ≤ length program.old) × (last < 2 ^ 31) }
    ensures { (program.new ≡ sets program.old (out * 4) (word_bytes (ending ends last))) × (result ≡ out + length (ending ends last)) }
{
    if !ends {
        return out;
    }
    put_word(program, out * 4, last + (1 << 31));
    out + 1
}

// Puts what a line puts.
fn put_line(l: &ReadLine<'_>, w: Walk, p: Put, labels: &Labels<'_>, program: &mut [u8]) -> Put
    requires { ((p.out + length (adds (labels_of labels.now.text.now) (walk_of w) p.last (heard_in l.now.bytes.now l.now.line))) * 4 ≤ length program.old) × (p.last < 2 ^ 31) }
    ensures { (program.new ≡ sets program.old (p.out * 4) (word_bytes (adds (labels_of labels.now.text.now) (walk_of w) p.last (heard_in l.now.bytes.now l.now.line))))
        × (result.out ≡ p.out + length (adds (labels_of labels.now.text.now) (walk_of w) p.last (heard_in l.now.bytes.now l.now.line)))
        × (result.last ≡ lastly (labels_of labels.now.text.now) (walk_of w) p.last (heard_in l.now.bytes.now l.now.line)) × (result.last < 2 ^ 31) }
{
    let Some(says) = l.line.says else { return p };
    if is_refused(w, l.line) {
        return p;
    }
    let q = put_operation(l.bytes, says.operation, w, p, labels, program);
    let out = put_end(program, q.out, says.ends, q.last);
    Put { out, ..q }
}

// Puts the syllables of a text.
pub fn write(labels: &Labels<'_>, program: &mut [u8])
    requires { (walked start (hear_all labels.now.text.now)).count * 4 ≤ length program.old }
    ensures { program.new ≡ sets program.old 0 (word_bytes (program_of (hear_all labels.now.text.now))) }
{
    let mut w = Walk::START;
    let mut p = Put { out: 0, last: 0 };
    for (_, l) in Lines::from_place(labels.text, 0) {
        p = put_line(&l, w, p, labels, program);
        w = step(w, l.line);
    }
    put_end(program, p.out, 0 < w.opened, p.last);
}
