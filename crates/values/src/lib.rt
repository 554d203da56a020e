// Values of expressions, and their arithmetic.
#![tactic(auto)]

ghost use Rattle.std.specs.Prelude.{◌≡◌, true, ◌+◌, ◌*◌, ◌<◌, ◌≤◌};
ghost use Rattle.lines.specs.Lines.{every};
ghost use Rattle.tokens.specs.Tokens.{is_decimal};
ghost use Rattle.values.specs.Values.{add, sub, mul, whole, held, within, both, decimal};
ghost use Rattle.values.specs.Combining.{Combined};

#[derive(Clone, Copy, PartialEq, Eq)]
pub enum Fault {
    // 19: a label that no line gives
    Missing,
    // 20: outside the range
    Outside,
}

// 2^31 more than the value.
pub type Value = Result<u32, Fault>;

// The value p - m.
fn fit(p: u64, m: u64) -> Value
    requires { (p < 9223372036854775808) × (m < 9223372036854775808) }
    ensures { result ≡ within p m }
{
    if p + 2147483648 < m {
        return Err(Fault::Outside);
    }
    if m + 2147483648 <= p {
        return Err(Fault::Outside);
    }
    Ok((p + 2147483648 - m) as u32)
}

fn sum(a: u32, b: u32) -> Value
    ensures { result ≡ held (add (whole a) (whole b)) }
{
    fit(a as u64 + b as u64, 4294967296)
}

fn difference(a: u32, b: u32) -> Value
    ensures { result ≡ held (sub (whole a) (whole b)) }
{
    fit(a as u64 + 2147483648, 2147483648 + b as u64)
}

fn multiplied(x: u64, y: u64) -> u64
    requires { (x ≤ 2147483648) × (y ≤ 2147483648) }
    ensures { (result ≡ x * y) × (result ≤ 4611686018427387904) }
{
    x * y
}

// By the signs of the two.
fn product(a: u32, b: u32) -> Value
    ensures { result ≡ held (mul (whole a) (whole b)) }
{
    let x = a as u64;
    let y = b as u64;
    if 2147483648 <= x {
        if 2147483648 <= y {
            return fit(multiplied(x - 2147483648, y - 2147483648), 0);
        }
        return fit(0, multiplied(x - 2147483648, 2147483648 - y));
    }
    if 2147483648 <= y {
        return fit(0, multiplied(2147483648 - x, y - 2147483648));
    }
    fit(multiplied(2147483648 - x, 2147483648 - y), 0)
}

// A label that no line gives goes before a value outside.
fn combined<F: FnOnce(u32, u32) -> Value + Drop>(f: F, a: Value, b: Value) -> Value
    requires { F.IsAlwaysCallable f }
    ensures { Combined (F.post f) a b result }
{
    match (a, b) {
        (Ok(x), Ok(y)) => f(x, y),
        (Err(Fault::Missing), _) | (_, Err(Fault::Missing)) => Err(Fault::Missing),
        _ => Err(Fault::Outside),
    }
}

pub fn plus(a: Value, b: Value) -> Value
    ensures { result ≡ both add a b }
{
    combined(sum, a, b)
}

pub fn minus(a: Value, b: Value) -> Value
    ensures { result ≡ both sub a b }
{
    combined(difference, a, b)
}

pub fn times(a: Value, b: Value) -> Value
    ensures { result ≡ both mul a b }
{
    combined(product, a, b)
}

// The value of a number's digits.
pub fn number(w: &[u8]) -> Value
    requires { every is_decimal w.now ≡ true }
    ensures { result ≡ decimal w.now }
{
    let mut v = 0;
    for d in w {
        v = v * 10 + (*d - b'0') as u64;
        if 2147483648 <= v {
            return Err(Fault::Outside);
        }
    }
    Ok((2147483648 + v) as u32)
}
