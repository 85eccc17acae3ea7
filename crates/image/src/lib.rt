// Saved images, form 1: their records, and which bytes are an image.
#![tactic(auto)]

mod header;
mod record;
mod validity;
mod walk;

pub use header::{FORM, HEADER_MARKS, Header};
pub use record::{END_MARKS, Record};
pub use validity::{MOST_BYTES, validate};
pub use walk::Records;
