// Words: clusters, registers and the names of operations.
ghost use Rattle.std.specs.Prelude.{◌≡◌, ◌≤◌, ◌<◌, length, drop};
ghost use Rattle.tokens.specs.Tokens.{tokens};
ghost use Rattle.operations.specs.Reader.{cluster_in, number_in, limit, register_in, row_of, read_cluster};
ghost use Rattle.tokens.specs.Tokens.{same};
ghost use Rattle.operations.specs.Code.{text, until_blank, base_of, numbered_by, Onward, Names};

use crate::Register;
use tokens::{Next, token_at};

fn cluster(w: &[u8]) -> Option<u32>
    ensures { result ≡ cluster_in w.now }
{
    match w {
        [b'c', d @ b'0'..=b'3'] => Some((*d - b'0') as u32),
        _ => None,
    }
}

// The cluster at `at`, behind the place after it.
pub fn cluster_at(line: &[u8], at: usize) -> Option<(usize, u32)>
    requires { at ≤ length line.now }
    ensures { (numbered_by line.now result ≡ read_cluster (tokens (drop at line.now))) × Onward line.now at result }
{
    let Next::Word(from, to) = token_at(line, at) else {
        return None;
    };
    Some((to, cluster(&line[from..to])?))
}

// A number without a needless 0.
fn number(w: &[u8]) -> Option<u32>
    ensures { result ≡ number_in w.now }
{
    match w {
        [d @ b'0'..=b'9'] => Some((*d - b'0') as u32),
        [d @ b'1'..=b'9', e @ b'0'..=b'9'] => Some(((*d - b'0') * 10 + (*e - b'0')) as u32),
        _ => None,
    }
}

// How many registers of a letter a cluster has.
fn count(letter: u8) -> u32
    ensures { result ≡ limit letter }
{
    match letter {
        b'r' => 64,
        b'b' => 8,
        b'l' => 1,
        _ => 0,
    }
}

fn register(w: &[u8]) -> Option<Register>
    ensures { result ≡ register_in w.now }
{
    let [b'$', letter, c @ b'0'..=b'3', b'.', digits @ ..] = w else {
        return None;
    };
    let number = number(digits)?;
    if count(*letter) <= number {
        return None;
    }
    Some(Register {
        letter: *letter,
        cluster: (*c - b'0') as u32,
        number,
    })
}

// The register at `at`, behind the place after it. As cluster_at, but each is held to a definition of its own, Names and numbered_by.
pub fn register_at(line: &[u8], at: usize) -> Option<(usize, Register)>
    requires { at ≤ length line.now }
    ensures { Names line.now at result }
{
    let Next::Word(from, to) = token_at(line, at) else {
        return None;
    };
    Some((to, register(&line[from..to])?))
}

// Whether a row's name is w, byte by byte: of most rows the first one tells.
fn is_named(row: &[u8], w: &[u8]) -> bool
    ensures { result ≡ same (until_blank row.now) w.now }
{
    let [a, behind @ ..] = row else {
        return w.is_empty();
    };
    if *a == b' ' {
        return w.is_empty();
    }
    let [b, rest @ ..] = w else {
        return false;
    };
    a == b && is_named(behind, rest)
}

// The row of a name in the code's table.
pub fn row_of(table: &[u8], w: &[u8]) -> Option<usize>
    requires { table.now ≡ text }
    ensures { result ≡ row_of w.now }
{
    // by row: its number is the answer
    for row in 0..58 {
        let at = row * 16;
        let end = at + 16;
        if is_named(&table[at..end], w) {
            return Some(row);
        }
    }
    None
}

// What a row puts into the syllable.
pub fn base_of(row: usize) -> u32
    requires { row < 58 }
    ensures { result ≡ base_of row }
{
    let r = row as u32;
    match r {
        0..=3 => r * 0x4_0000,
        4..=42 => (r - 3) * 0x100_0000,
        43..=56 => (r + 7) * 0x100_0000,
        _ => 60 * 0x100_0000,
    }
}
