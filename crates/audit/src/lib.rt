// The audit of a table: whether its cells and registers stand, by what they hold alone.
#![tactic(auto)]

mod cells;
mod keys;
mod registers;
mod slots;
mod verdict;

pub use registers::Registers;
pub use verdict::audit;
