// Value blocks and sums. A value is a whole number of 32 signed bits; it is held here as those bits, and the promises read it in ℤ.
#![tactic(auto)]

mod block;
mod bytes;
mod sum;

pub use block::{decode, encode};
pub use bytes::{four, word};
pub use sum::{SumError, minus, plus};
