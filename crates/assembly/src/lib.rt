// The program assemble: a text in the notation in, its syllables in hexadecimal out.
#![tactic(auto)]

mod printing;

use arrayvec::ArrayVec;
pub use printing::print;

// The output: nine bytes for each of 4,096 syllables at most.
pub type Printed = ArrayVec<u8, 36864>;
