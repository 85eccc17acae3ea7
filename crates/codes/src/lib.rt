// Kinds of cell with a byte form, and rows of them over rows of bytes.
#![tactic(auto)]

mod bytes;
mod coded;
mod kinds;
mod links;
mod packed;
mod voice;

pub use bytes::ByteArray;
pub use coded::Coded;
pub use kinds::Deadline;
pub use packed::PackedRow;
pub use voice::Voice;
