// Rows of cells: what a table keeps its numbers, links and values in.
#![tactic(auto)]

mod cell;
mod inline;
mod row;
mod slice;
mod window;

pub use cell::{FreeListEntry, NO_LINK, NONE};
pub use inline::InlineRow;
pub use row::Row;
pub use slice::SliceRow;
pub use window::WindowRow;
