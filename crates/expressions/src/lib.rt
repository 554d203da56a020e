// Where an expression ends, found without its value: a loop that counts the brackets which are open.
#![tactic(auto)]

ghost use Rattle.std.specs.Prelude.{◌≡◌, ◌≤◌, ◌<◌, length, drop};
ghost use Rattle.tokens.specs.Tokens.{tokens, is_decimal, is_letter};
ghost use Rattle.expressions.specs.Grammar.{is_number, is_label};
ghost use Rattle.expressions.specs.Reader.{map_got, read_e};
ghost use Rattle.expressions.specs.Skipped.{passed, Within, is_factor, is_operator};
ghost use Rattle.expressions.specs.Promise.{Unique, Exact};

use tokens::{Next, token_at};

fn is_decimal(b: u8) -> bool
    ensures { result ≡ is_decimal b }
{
    matches!(b, b'0'..=b'9')
}

fn is_letter(b: u8) -> bool
    ensures { result ≡ is_letter b }
{
    matches!(b, b'A'..=b'Z' | b'a'..=b'z' | b'_')
}

pub fn is_number(w: &[u8]) -> bool
    ensures { result ≡ is_number w.now }
{
    w.len() != 0 && w.iter().all(|b| is_decimal(*b))
}

pub fn is_label(w: &[u8]) -> bool
    ensures { result ≡ is_label w.now }
{
    matches!(w, [b, ..] if is_letter(*b))
}

fn is_factor(w: &[u8]) -> bool
    ensures { result ≡ is_factor w.now }
{
    is_number(w) || is_label(w)
}

fn is_operator(b: u8) -> bool
    ensures { result ≡ is_operator b }
{
    matches!(b, b'+' | b'-' | b'*')
}

// Where the expression that begins at `at` ends: `open` brackets are open, and `first` says that a factor is to come.
pub fn skip(line: &[u8], at: usize) -> Option<usize>
    requires { at ≤ length line.now }
    ensures { (passed line.now result ≡ map_got (λ _. tt) (read_e 16 (tokens (drop at line.now)))) × Within line.now at result }
{
    let mut p = at;
    let mut open = 0u32;
    let mut first = true;
    loop {
        match token_at(line, p) {
            Next::End if first => return None,
            Next::Word(from, to) if first => {
                if !is_factor(&line[from..to]) {
                    return None;
                }
                first = false;
                p = to;
            }
            Next::Mark(b, n) if first => {
                if b != b'(' {
                    return None;
                }
                if open == 16 {
                    return None;
                }
                // brackets are counted, not places
                open += 1;
                p = n;
            }
            Next::Mark(b, n) if is_operator(b) => {
                first = true;
                p = n;
            }
            Next::Mark(b, n) => {
                if open == 0 {
                    return Some(p);
                }
                if b != b')' {
                    return None;
                }
                open -= 1;
                p = n;
            }
            _ if open == 0 => return Some(p),
            _ => return None,
        }
    }
}

// What is proved of expressions. The functions do nothing: their promises are the theorems, so that nobody drops one unseen.
pub fn unique_theorems()
    ensures { Unique }
{}

pub fn exact_theorems()
    ensures { Exact }
{}
