// Calls of a table given as values: one call, a list of calls, and a list of calls on a fresh table.
#![tactic(auto)]

mod making;
mod performing;
mod playing;

pub use performing::{perform, run};
pub use playing::{Played, play};
