// Numbers of one, two and four bytes, big-endian, read from a slice and put into one.
ghost use Rattle.std.specs.Prelude.{◌≡◌, ◌+◌, ◌<◌, length};
ghost use Rattle.word.specs.Bytes.{number_at, word_at, put_number, put_word};

pub fn byte_at(l: &[u8], at: usize) -> u32
    requires { at < length l.now }
    ensures is { result ≡ number_at 1 at l.now }
    ensures below { result < 256 }
{
    u32::from(l[at])
}

pub fn half_at(l: &[u8], at: usize) -> u32
    requires { at + 1 < length l.now }
    ensures is { result ≡ number_at 2 at l.now }
    ensures below { result < 65536 }
{
    u32::from(u16::from_be_bytes([l[at], l[at + 1]]))
}

pub fn word_at(l: &[u8], at: usize) -> u32
    requires { at + 3 < length l.now }
    ensures { result ≡ word_at at l.now }
{
    u32::from_be_bytes([l[at], l[at + 1], l[at + 2], l[at + 3]])
}

// The low byte of `v`.
pub fn put_byte(l: &mut [u8], at: usize, v: u32)
    requires { at < length l.old }
    ensures { l.new ≡ put_number 1 at v l.old }
{
    // a place in bytes is what these three are for
    l[at] = (v % 256) as u8;
}

// The low two bytes of `v`.
pub fn put_half(l: &mut [u8], at: usize, v: u32)
    requires { at + 1 < length l.old }
    ensures { l.new ≡ put_number 2 at v l.old }
{
    let low = (v % 0x1_0000) as u16;
    l[at..at + 2].copy_from_slice(&low.to_be_bytes());
}

pub fn put_word(l: &mut [u8], at: usize, w: u32)
    requires { at + 3 < length l.old }
    ensures { l.new ≡ put_word at w l.old }
{
    l[at..at + 4].copy_from_slice(&w.to_be_bytes());
}
