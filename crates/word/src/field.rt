// The low bits of a word, as a number without a sign and with one.
ghost use Rattle.std.specs.Prelude.{◌≡◌, ◌%◌, ◌^◌, ◌<◌};
ghost use Rattle.word.specs.Widen.{widen};

pub fn low<const K: u32>(x: u32) -> u32
    requires { K < 32 }
    ensures { result ≡ x % 2 ^ K }
{
    x % (1 << K)
}

// The low K bits, widened by sign.
pub fn widen<const K: u32>(x: u32) -> u32
    requires { (0 < K) × (K < 32) }
    ensures { result ≡ widen K x }
{
    let low = low::<K>(x);
    if low < 1 << (K - 1) {
        low
    } else {
        low.wrapping_sub(1 << K)
    }
}
