// Standard input, assembled, to standard output. No contract can say what is read or written; what is called is proved.
#![tactic(auto)]

use input::read_full;
use std::io::{self, Write};

// As the main of preview: what they share is read_full; the size and what is called differ.
fn main(rt: HostRuntime) -> io::Result<()> {
    // one byte more than a text may have: of a longer one no more can matter
    let mut input = [0u8; 262145];
    let n = read_full(&mut rt.stdin(), &mut input)?;
    let printed = assembly::print(&input[..n]);
    rt.stdout().write_all(printed.as_slice())
}
