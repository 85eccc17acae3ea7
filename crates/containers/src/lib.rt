// A vector and a queue over any row, for any plain kind of value.
#![tactic(auto)]

mod capacity;
mod extent;
mod position;
mod queue;
mod vec;

pub use capacity::{MAX_CAPACITY, fitting};
pub use queue::MetaQueue;
pub use vec::MetaVec;
