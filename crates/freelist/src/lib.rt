// The free list of a table, in its row of links: steps on the links, whatever they are.
#![tactic(auto)]

mod fresh;
mod links;

pub use fresh::{first_key, fresh_link};
pub use links::{check_claim, check_neighbour, link_first, link_of, unlink};
