// The lines of a script, and the commands that they write.
#![tactic(auto)]

mod command;
mod scanning;

pub use command::{Command, Kind, UnknownLetter};
pub use scanning::scan;
