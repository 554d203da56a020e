// One item at the start of a text, with the blank or the newline after it.
ghost use Rattle.std.specs.Prelude.{◌≡◌, ◌+◌, ◌^◌, ◌≤◌, ◌<◌, length, drop, IfSome, MatchOption};
ghost use Rattle.word.specs.Choice.{pick};
ghost use Rattle.lines.specs.Digits.{is_digit, digit_of};
ghost use Rattle.lines.specs.Items.{number_in, followed, item_at, syllable_at, value_of};

use isa::syllable::ends;

#[derive(Clone, Copy)]
pub enum Item {
    // a blank follows
    Inner(u32),
    // a newline follows
    Last(u32),
}

// Upper case alone.
fn digit_of(b: u8) -> Option<u32>
    ensures is { result ≡ pick (is_digit b) (Some (digit_of b)) None }
    ensures below { IfSome result (λ d. d < 16) }
{
    match b {
        b'0'..=b'9' => Some((b - b'0') as u32),
        b'A'..=b'F' => Some((b - b'A') as u32 + 10),
        _ => None,
    }
}

// The number of at most eight digits.
fn number_of(digits: &[u8]) -> Option<u32>
    requires { length digits.now ≤ 8 }
    ensures { result ≡ number_in digits.now }
{
    let mut v = 0;
    for &b in digits {
        v = v * 16 + digit_of(b)?;
    }
    Some(v)
}

// By the byte after it.
fn followed_by(b: u8, v: u32) -> Option<Item>
    ensures { result ≡ followed b v }
{
    match b {
        b' ' => Some(Item::Inner(v)),
        b'\n' => Some(Item::Last(v)),
        _ => None,
    }
}

// The item of so many digits, and the text behind it.
#[tactic(auto, using(crate::proofs::Finding::item_steps))]
pub fn item_at(text: &[u8], digits: usize) -> Option<(Item, &[u8])>
    requires { digits ≤ 8 }
    ensures is { let item = item_at digits text.now in MatchOption result (item ≡ None) (λ p. item ≡ Some p.0) }
    ensures below { IfSome result (λ p. value_of p.0 < 16 ^ digits) }
    ensures behind { IfSome result (λ p. (p.1.now ≡ drop (digits + 1) text.now) × (digits < length text.now)) }
{
    let (number, behind) = text.split_at_checked(digits)?;
    let [b, rest @ ..] = behind else {
        return None;
    };
    let v = number_of(number)?;
    let item = followed_by(*b, v)?;
    Some((item, rest))
}

// The syllable, and the text behind it: bit 31 before a newline only, and more of the text after a blank.
#[tactic(auto, unfolding(crate::specs::Items::syllable_at))]
pub fn syllable_at(text: &[u8]) -> Option<(Item, &[u8])>
    ensures is { let item = syllable_at text.now in MatchOption result (item ≡ None) (λ p. item ≡ Some p.0) }
    ensures behind { IfSome result (λ p. (p.1.now ≡ drop 9 text.now) × (8 < length text.now)) }
{
    match item_at(text, 8)? {
        (Item::Inner(w), rest) if ends(w) || rest.is_empty() => None,
        (Item::Last(w), _) if !ends(w) => None,
        found => Some(found),
    }
}
