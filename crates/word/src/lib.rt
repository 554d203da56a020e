// What everybody cites and nothing of VEX: numbers in bytes, big-endian, and fields widened by sign.
#![tactic(auto)]

pub mod number; // number.rt: numbers of one, two and four bytes, read and put
pub mod field; // field.rt: the low bits of a word, alone and widened by sign
