// Lines of bytes, and the numbers that they write.
#![tactic(auto)]

mod decimal;
mod lines;

pub use decimal::{MOST_DIGITS, number};
pub use lines::LineReader;
