// The text program: lines of hexadecimal in, lines of hexadecimal out.
#![tactic(auto)]

mod registers;
pub mod rows;
mod running;

use arrayvec::ArrayVec;
pub use running::show;

// The output: line 1, and a line for each of 288 registers at most.
pub type Shown = ArrayVec<u8, 4341>;
