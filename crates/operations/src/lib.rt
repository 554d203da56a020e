// Operations: what stands at a place of a line.
#![tactic(auto)]

ghost use Rattle.std.specs.Prelude.{◌≡◌, ◌≤◌, length, drop};
ghost use Rattle.tokens.specs.Tokens.{tokens};
ghost use Rattle.expressions.specs.Reader.{map_got};
ghost use Rattle.operations.specs.Meaning.{said};
ghost use Rattle.tokens.specs.Reading.{next_tokens};
ghost use Rattle.operations.specs.Reader.{fronted, read_after, read_moved, read_operation};
ghost use Rattle.operations.specs.Parsed.{told, Kept};
ghost use Rattle.operations.specs.Code.{text, front_of, Gathered};
ghost use Rattle.operations.specs.Promise.{Unique, Exact};

use crate::items::operands;
use crate::words::{base_of, cluster_at, row_of};
use tokens::{Next, token_at};
use values::Fault;

mod items; // items.rt: what stands after a name
mod words; // words.rt: clusters, registers, names

// The syllable of an operation, without bits 31 and 30. A value outside its field is outside too.
pub type Syllable = Result<u32, Fault>;

// The field of an expression; a target's is goto's, that of br and brf, or call's.
#[derive(Clone, Copy, PartialEq, Eq)]
pub enum Field {
    Immediate,
    Offset,
    Goto,
    Branch,
    Call,
}

#[derive(Clone, Copy)]
pub struct Operation {
    pub cluster: u32,
    // what name and registers fill
    pub bits: u32,
    // the expression's field, and where it begins
    pub asks: Option<(Field, usize)>,
}

#[derive(Clone, Copy)]
pub struct Register {
    // as it is written, and as the table's items name it
    pub letter: u8,
    pub cluster: u32,
    pub number: u32,
}

// An item at a place: the place after it, what it adds to the bits, its expression.
#[derive(Clone, Copy)]
pub struct Step {
    pub to: usize,
    pub adds: u32,
    pub asks: Option<(Field, usize)>,
}

// The operation's cluster, and the second one of "c1=c0".
#[derive(Clone, Copy)]
pub struct Front {
    pub cluster: u32,
    pub from: Option<u32>,
}

// Whether a second cluster stands in front of mov, and of nothing else.
fn is_fronted(row: usize, from: Option<u32>) -> bool
    ensures { result ≡ fronted row from }
{
    from.is_some() == (row == 57)
}

// The operation whose name stands from `start` to `at`, by the code's table.
fn looked_up(
    table: &[u8],
    line: &[u8],
    start: usize,
    at: usize,
    front: Front,
) -> Option<(usize, Operation)>
    requires { (table.now ≡ text) × (start ≤ at) × (at ≤ length line.now) }
    ensures { (told line.now result ≡ map_got said (read_after (front_of front.cluster front.from) (next_tokens line.now (Next.Word start at))))
        × Gathered line.now at front.cluster result }
{
    let row = row_of(table, &line[start..at])?;
    if !is_fronted(row, front.from) {
        return None;
    }
    let first = row * 16 + 7;
    let last = first + 9;
    operands(line, at, front, &table[first..last], base_of(row))
}

// The table has 16 bytes a row: a name, and from byte 7 on the letters of its items.
fn by_name(line: &[u8], start: usize, at: usize, front: Front) -> Option<(usize, Operation)>
    requires { (start ≤ at) × (at ≤ length line.now) }
    ensures { (told line.now result ≡ map_got said (read_after (front_of front.cluster front.from) (next_tokens line.now (Next.Word start at))))
        × Gathered line.now at front.cluster result }
{
    looked_up(
        b"nop             stop            call   l=k      return l        \
          add    t=1,s    sub    t=s,1    and    t=1,s    andc   t=1,s    \
          or     t=1,s    orc    t=1,s    xor    t=1,s    shl    t=1,s    \
          shr    t=1,s    shru   t=1,s    sh1add t=1,s    sh2add t=1,s    \
          sh3add t=1,s    sh4add t=1,s    max    t=1,s    maxu   t=1,s    \
          min    t=1,s    minu   t=1,s    sxtb   t=1      sxth   t=1      \
          zxtb   t=1      zxth   t=1      addcg  t,c=b,1,2mpyll  t=1,s    \
          mpyllu t=1,s    mpylh  t=1,s    mpylhu t=1,s    mpyhh  t=1,s    \
          mpyhhu t=1,s    cmpeq  e=1,s    cmpne  e=1,s    cmplt  e=1,s    \
          cmple  e=1,s    cmpgt  e=1,s    cmpge  e=1,s    cmpltu e=1,s    \
          cmpleu e=1,s    cmpgtu e=1,s    cmpgeu e=1,s    slct   t=b,1,2  \
          slctf  t=b,1,2  ldw    t=o[1]   ldh    t=o[1]   ldhu   t=o[1]   \
          ldb    t=o[1]   ldbu   t=o[1]   stw    o[1]=t   sth    o[1]=t   \
          stb    o[1]=t   copy   t=x      goto   g        br     d,j      \
          brf    d,j      mov    t=x      ",
        line,
        start,
        at,
        front,
    )
}

// After "c1=": the second cluster and the name.
fn moved(line: &[u8], at: usize, cluster: u32) -> Option<(usize, Operation)>
    requires { at ≤ length line.now }
    ensures { (told line.now result ≡ map_got said (read_moved cluster (tokens (drop at line.now)))) × Gathered line.now at cluster result }
{
    let (n, second) = cluster_at(line, at)?;
    let Next::Word(start, end) = token_at(line, n) else {
        return None;
    };
    let front = Front {
        cluster,
        from: Some(second),
    };
    by_name(line, start, end, front)
}

// The operation that begins at `at`, and the place after it.
pub fn parse(line: &[u8], at: usize) -> Option<(usize, Operation)>
    requires { at ≤ length line.now }
    ensures { (told line.now result ≡ map_got said (read_operation (tokens (drop at line.now)))) × Kept line.now at result }
{
    let (n, cluster) = cluster_at(line, at)?;
    match token_at(line, n) {
        Next::End => None,
        Next::Word(start, end) => {
            let front = Front {
                cluster,
                from: None,
            };
            by_name(line, start, end, front)
        }
        Next::Mark(b, m) => {
            if b != b'=' {
                return None;
            }
            moved(line, m, cluster)
        }
    }
}

// What is proved of operations. The functions do nothing: their promises are the theorems, so that nobody drops one unseen.
pub fn unique_theorems()
    ensures { Unique }
{}

pub fn exact_theorems()
    ensures { Exact }
{}
