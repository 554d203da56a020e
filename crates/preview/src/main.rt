// Standard input, run by the text program, to standard output. No contract can say what is read or written; what is called is proved.
#![tactic(auto)]

use input::read_full;
use std::io::{self, Write};

// As the main of assemble: what they share is read_full; the size and what is called differ.
fn main(rt: HostRuntime) -> io::Result<()> {
    // one byte more than a text may have: of a longer one no more can matter
    let mut input = [0u8; 32769];
    let n = read_full(&mut rt.stdin(), &mut input)?;
    let shown = text::show(&input[..n]);
    rt.stdout().write_all(shown.as_slice())
}
