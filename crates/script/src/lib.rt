// Scripts of table calls, from the bytes read to the bytes printed.
#![tactic(auto)]

mod commands;
mod program;
mod transcript;

pub use program::run;
pub use transcript::transcribe;
