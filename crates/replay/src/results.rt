// Kind 1: the value of every operation for s1, s2 and b, with s2 itself and with the immediate of a syllable; then carry, address, loads and stores.
ghost use Rattle.std.specs.Prelude.{◌<◌};

use crate::stream::{Header, Stop, Stream};
use isa::decode::{immediate, offset};
use word::number::put_word;

// The i-th word of the answer.
fn result(i: u32, header: &Header) -> u32
    requires { i < 138 }
{
    let (s1, s2, b, syllable) = (
        header.word(1),
        header.word(2),
        header.word(3),
        header.word(4),
    );
    match i {
        0..=63 => ops::value(i, s1, s2, b),
        64..=127 => ops::value(i - 64, s1, immediate(syllable), b),
        128 => ops::carry(s1, s2, b),
        129 => ops::address(s1, offset(syllable)),
        130..=134 => ops::loaded(i - 78, s1),
        _ => ops::stored(i - 78, s1),
    }
}

// Answers a request, which brings nothing after its header.
pub fn answer(stream: Stream, header: &Header) -> Result<(), Stop> {
    let mut words = [0; 552];
    for i in 0..138 {
        put_word(&mut words, i * 4, result(i as u32, header));
    }
    stream.write(&words)
}
