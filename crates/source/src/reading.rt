// One line of a text: where it ends, and what it says.
ghost use Rattle.std.specs.Prelude.{◌≡◌, List, ◌∷◌, ℕ, ◌-◌, ◌≤◌, eqb, length, take, drop};
ghost use Rattle.std.proofs.Math.Option.{Option as Maybe};
ghost use Rattle.std.proofs.Props.{props};
ghost use Rattle.std.specs.List.{position};
ghost use Rattle.lines.specs.Lines.{newline};
ghost use Rattle.tokens.specs.Tokens.{Word, tokens, letters, same};
ghost use Rattle.source.specs.Heard.{heard};
ghost use Rattle.source.specs.Labels.{gives as gives_name};
ghost use Rattle.source.specs.Reader.{end_of, body_of, hear};
ghost use Rattle.source.specs.Seek.{Cut, Colon, Labelled, end_in, heard_by, heard_in, name_in, operation_of, SaysIn, Kept};

use expressions::is_label;
use operations::{Operation, parse};
use tokens::{Next, token_at};

// Where a name stands in a line.
#[derive(Clone, Copy)]
pub struct Span {
    pub from: usize,
    pub to: usize,
}

// What a line says beside its label: its operation, and whether it ends the instruction.
#[derive(Clone, Copy)]
pub struct Says {
    pub operation: Option<Operation>,
    pub ends: bool,
}

#[derive(Clone, Copy)]
pub struct Line {
    // the name of the label that it gives
    pub label: Option<Span>,
    // none where the line is not as it should be
    pub says: Option<Says>,
}

impl Line {
    pub fn operation(self) -> Option<Operation>
        ensures { result ≡ operation_of self.says }
    {
        self.says?.operation
    }
}

// A line with its bytes.
#[derive(Clone, Copy)]
pub struct ReadLine<'a> {
    pub bytes: &'a [u8],
    pub line: Line,
    pub ghost kept: { Kept bytes.now line } by { Prim.hlevel props },
}

impl<'a> ReadLine<'a> {
    ghost use Rattle.std.specs.Prelude.{MatchOption};
    ghost use Rattle.std.proofs.Math.Option.{none, some};

    // The name of its label.
    pub fn name(&self) -> Option<&'a [u8]>
        ensures { MatchOption result (name_in self.now.bytes.now self.now.line.label ≡ none)
            (λ name. name_in self.now.bytes.now self.now.line.label ≡ some name.now) }
    {
        let Span { from, to } = self.line.label?;
        Some(&self.bytes[from..to])
    }

    // Whether it gives a label of that name.
    pub fn gives(&self, name: &[u8]) -> bool
        ensures { result ≡ gives_name name.now (heard_in self.now.bytes.now self.now.line) }
    {
        match self.name() {
            Some(own) => is_same(own, name),
            None => false,
        }
    }
}

fn first_newline(s: &[u8]) -> Option<usize>
    ensures { result ≡ position (λ b. eqb b newline) s.now }
{
    s.iter().position(|b| *b == b'\n')
}

// How long the first line of a text is.
pub fn line_length(s: &[u8]) -> usize
    ensures { Cut s.now result }
{
    first_newline(s).unwrap_or(s.len())
}

// A name is another, byte by byte.
pub fn is_same(a: &[u8], b: &[u8]) -> bool
    ensures { result ≡ same a.now b.now }
{
    a == b
}

// The place behind the colon at `at`.
fn behind_colon(line: &[u8], at: usize) -> Option<usize>
    requires { at ≤ length line.now }
    ensures { Colon line.now at result }
{
    match token_at(line, at) {
        Next::Mark(b, n) if b == b':' => Some(n),
        _ => None,
    }
}

// The label of a line whose first word is from `from` to `to`, and the place behind its colon.
fn label_at(line: &[u8], from: usize, to: usize) -> Option<(Span, usize)>
    requires from_le_to { (from ≤ to) × (to ≤ length line.now) }
    requires line_value { tokens line.now ≡ Word (take (to - from) (drop from line.now)) ∷ tokens (drop to line.now) }
    ensures { Labelled line.now result }
{
    if !is_label(&line[from..to]) {
        return None;
    }
    let rest = behind_colon(line, to)?;
    Some((Span { from, to }, rest))
}

fn label_of(line: &[u8]) -> Option<(Span, usize)>
    ensures { Labelled line.now result }
{
    match token_at(line, 0) {
        Next::Word(from, to) => label_at(line, from, to),
        Next::End | Next::Mark(_, _) => None,
    }
}

// Whether `;;` is at `at`; none where more is there.
fn end_at(line: &[u8], at: usize) -> Option<bool>
    requires { at ≤ length line.now }
    ensures { end_in result ≡ end_of (tokens (drop at line.now)) }
{
    match token_at(line, at) {
        Next::End => Some(false),
        Next::Mark(_, _) => None,
        Next::Word(from, to) => {
            if !is_same(&line[from..to], b";;") {
                return None;
            }
            match token_at(line, to) {
                Next::End => Some(true),
                Next::Word(_, _) | Next::Mark(_, _) => None,
            }
        }
    }
}

// What stands behind the label.
fn says_at(line: &[u8], at: usize) -> Option<Says>
    requires { at ≤ length line.now }
    ensures heard { (given : Maybe (List ℕ))
        → heard_by given line.now result ≡ heard (body_of given (end_of (tokens (drop at line.now))) (tokens (drop at line.now))) }
    ensures kept { SaysIn line.now result }
{
    if let Some(ends) = end_at(line, at) {
        return Some(Says {
            operation: None,
            ends,
        });
    }
    let (n, o) = parse(line, at)?;
    let ends = end_at(line, n)?;
    Some(Says {
        operation: Some(o),
        ends,
    })
}

// What a line says.
pub fn read(line: &[u8]) -> ReadLine<'_>
    ensures bytes { result.bytes.now ≡ line.now }
    ensures heard { heard_in line.now result.line ≡ hear line.now }
{
    let (label, rest) = match label_of(line) {
        Some((name, rest)) => (Some(name), rest),
        None => (None, 0),
    };
    let says = says_at(line, rest);
    ReadLine {
        bytes: line,
        line: Line { label, says },
    }
}
