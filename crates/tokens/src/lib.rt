// The tokens of a line, found one at a time.
#![tactic(auto)]

ghost use Rattle.std.specs.Prelude.{◌≡◌, true, false, ◌≤◌, length, take, drop};
ghost use Rattle.lines.specs.Lines.{every};
ghost use Rattle.tokens.specs.Tokens.{is_word_byte, is_blank, starts_word, goes_on, first, tokens};
ghost use Rattle.tokens.specs.Reading.{next_tokens, Onwards};
ghost use Rattle.tokens.specs.Promise.{OneWay};

// The next token of a line, if one is left: an Option of tokens would only nest these three cases.
#[derive(Clone, Copy, PartialEq, Eq)]
pub enum Next {
    End,
    // from, to
    Word(usize, usize),
    // the byte, and the place after it
    Mark(u8, usize),
}

fn is_word_byte(b: u8) -> bool
    ensures { result ≡ is_word_byte b }
{
    // joined by `|`, without a jump: it is asked of each byte of a word
    matches!(b, b'0'..=b'9')
        | matches!(b, b'A'..=b'Z')
        | matches!(b, b'a'..=b'z')
        | matches!(b, b'_' | b'?' | b'.')
}

fn is_blank(b: u8) -> bool
    ensures { result ≡ is_blank b }
{
    matches!(b, b' ' | b'\t' | b'\r')
}

fn starts_word(b: u8) -> bool
    ensures { result ≡ starts_word b }
{
    is_word_byte(b) || matches!(b, b'$' | b';')
}

fn goes_on(b: u8, c: u8) -> bool
    ensures { result ≡ goes_on b c }
{
    if b == b';' {
        c == b';'
    } else {
        is_word_byte(c)
    }
}

// How many blanks a line begins with.
fn blanks(s: &[u8]) -> usize
    ensures { (result ≤ length s.now) × (tokens s.now ≡ tokens (drop result s.now))
        × (first is_blank (drop result s.now) ≡ false) }
{
    s.iter().position(|b| !is_blank(*b)).unwrap_or(s.len())
}

// How many bytes go on from b.
fn run_length(b: u8, s: &[u8]) -> usize
    ensures { (result ≤ length s.now) × (every (goes_on b) (take result s.now) ≡ true)
        × (first (goes_on b) (drop result s.now) ≡ false) }
{
    s.iter().position(|c| !goes_on(b, *c)).unwrap_or(s.len())
}

// The token at `at`.
pub fn token_at(line: &[u8], at: usize) -> Next
    requires { at ≤ length line.now }
    ensures { (tokens (drop at line.now) ≡ next_tokens line.now result) × Onwards line.now at result }
{
    let p = at + blanks(&line[at..]);
    if p == line.len() || line[p] == b'#' {
        return Next::End;
    }
    let b = line[p];
    let q = p + 1;
    if starts_word(b) {
        return Next::Word(p, q + run_length(b, &line[q..]));
    }
    Next::Mark(b, q)
}

// What is proved of tokens. The function does nothing: its promise is the theorem, so that nobody drops it unseen.
pub fn token_theorems()
    ensures { OneWay }
{}
