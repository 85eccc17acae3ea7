// Tests of the layers below, and a kind of cell of a caller's own.
#![tactic(auto)]

mod colour;
mod flag;
#[cfg(test)]
mod holders;
#[cfg(test)]
mod packed_rows;
#[cfg(test)]
mod plain_rows;
#[cfg(test)]
mod queues;
#[cfg(test)]
mod tables;
#[cfg(test)]
mod texts;
#[cfg(test)]
mod vectors;

pub use colour::Colour;
pub use flag::Flag;
