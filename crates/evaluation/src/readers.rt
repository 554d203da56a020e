// Expressions: readers that call each other.
ghost use Rattle.std.specs.Prelude.{◌≡◌, List, ℕ, ◌≤◌, length, drop};
ghost use Rattle.tokens.specs.Tokens.{Token, tokens};
ghost use Rattle.expressions.specs.Grammar.{sign_at, star_at, star};
ghost use Rattle.expressions.specs.Meaning.{signed, value_e, value_t, value_f};
ghost use Rattle.expressions.specs.Reader.{got, map_got, read_e, read_t, read_f};
ghost use Rattle.expressions.specs.Valued.{word_as, closed_by};
ghost use Rattle.evaluation.specs.Evaluated.{labels_of, got_of, read_as, Inside, Stands, sign_of};

use crate::labels::Labels;
use expressions::{is_label, is_number};
use tokens::{Next, token_at};
use values::Value;

// A sign, and the place after it. Apart from star_at, since each is held to its own test of the grammar.
fn sign_at(line: &[u8], at: usize) -> Option<(u8, usize)>
    requires { at ≤ length line.now }
    ensures { Stands sign_at sign_of line.now at result }
{
    match token_at(line, at) {
        Next::Mark(b, n) if b == b'+' || b == b'-' => Some((b, n)),
        _ => None,
    }
}

fn star_at(line: &[u8], at: usize) -> Option<(u8, usize)>
    requires { at ≤ length line.now }
    ensures { Stands star_at (λ (b : ℕ). star) line.now at result }
{
    match token_at(line, at) {
        Next::Mark(b, n) if b == b'*' => Some((b, n)),
        _ => None,
    }
}

fn joined(b: u8, v: Value, w: Value) -> Value
    ensures { result ≡ signed (sign_of b) v w }
{
    if b == b'+' {
        values::plus(v, w)
    } else {
        values::minus(v, w)
    }
}

// The bracket that closes.
fn closed(line: &[u8], at: usize, v: Value) -> Option<(usize, Value)>
    requires { at ≤ length line.now }
    ensures { (read_as line.now result ≡ closed_by (got v (tokens (drop at line.now)))) × Inside line.now at result }
{
    match token_at(line, at) {
        Next::Mark(b, n) if b == b')' => Some((n, v)),
        _ => None,
    }
}

// A word as a factor.
fn word(w: &[u8], labels: &Labels<'_>) -> Option<Value>
    ensures { (ts : List Token) → got_of result ts ≡ word_as (labels_of labels.now.text.now) w.now ts }
{
    if is_number(w) {
        Some(values::number(w))
    } else if is_label(w) {
        Some(labels.value(w))
    } else {
        None
    }
}

// Three readers, and none for two of them: term and expression differ in all that their clauses name, grammar, value and the reader below.

// The place after a factor, and its value.
#[cycle(expression_factor_term)]
pub fn factor(line: &[u8], labels: &Labels<'_>, at: usize, depth: u32) -> Option<(usize, Value)>
    requires { at ≤ length line.now }
    ensures { (read_as line.now result
        ≡ map_got (value_f (labels_of labels.now.text.now)) (read_f depth (tokens (drop at line.now))))
        × Inside line.now at result }
{
    match token_at(line, at) {
        Next::End => None,
        Next::Word(from, to) => {
            let v = word(&line[from..to], labels)?;
            Some((to, v))
        }
        Next::Mark(b, n) => {
            if b != b'(' || depth == 0 {
                return None;
            }
            let (m, v) = expression(line, labels, n, depth - 1)?;
            closed(line, m, v)
        }
    }
}

#[cycle(expression_factor_term)]
pub fn term(line: &[u8], labels: &Labels<'_>, at: usize, depth: u32) -> Option<(usize, Value)>
    requires { at ≤ length line.now }
    ensures { (read_as line.now result
        ≡ map_got (value_t (labels_of labels.now.text.now)) (read_t depth (tokens (drop at line.now))))
        × Inside line.now at result }
{
    let (mut p, mut v) = factor(line, labels, at, depth)?;
    while let Some((_, q)) = star_at(line, p) {
        let (n, x) = factor(line, labels, q, depth)?;
        v = values::times(v, x);
        p = n;
    }
    Some((p, v))
}

#[cycle(expression_factor_term)]
pub fn expression(line: &[u8], labels: &Labels<'_>, at: usize, depth: u32) -> Option<(usize, Value)>
    requires { at ≤ length line.now }
    ensures { (read_as line.now result
        ≡ map_got (value_e (labels_of labels.now.text.now)) (read_e depth (tokens (drop at line.now))))
        × Inside line.now at result }
{
    let (mut p, mut v) = term(line, labels, at, depth)?;
    while let Some((b, q)) = sign_at(line, p) {
        let (n, x) = term(line, labels, q, depth)?;
        v = joined(b, v, x);
        p = n;
    }
    Some((p, v))
}
