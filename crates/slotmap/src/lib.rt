// The slot map: a table with stable keys over four rows of cells.
#![tactic(auto)]

mod fresh;
mod iter;
mod plan;
mod slotmap;
mod steps;
mod table;

pub use iter::Cursor;
pub use plan::Plan;
pub use slotmap::SlotMap;
pub use table::{MetaSlotMap, Rows, SlotMapKey};
