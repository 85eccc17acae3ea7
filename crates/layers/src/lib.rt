// Rows layered on rows, and what a caller's memory holds once they are given up.
#![tactic(auto)]

mod links;
mod numbers;

pub use links::store_link;
pub use numbers::store_number;
