// The last numbers of a text: the keys of the sounds that stopped last.
#![tactic(auto)]

mod notes;
mod printed;

pub use printed::{Printed, last_numbers};
