// The chip's record as 28 words of sixteen bits, for callers in other languages. Any 28 words are some record: each number is taken as it
// stands, a switch from its bit, and what soundness asks is left to the chip.
#![tactic(auto)]

mod bits;
mod read;
mod write;

pub use read::decode;
pub use write::{advance, encode};
