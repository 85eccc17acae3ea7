// Tests of the table: over several kinds of memory, with several kinds of value, and at its edges.
#![tactic(auto)]

#[cfg(test)]
mod alike;
#[cfg(test)]
mod audits;
#[cfg(test)]
mod holders;
#[cfg(test)]
mod plans;
mod texture;
#[cfg(test)]
mod values;

use rows::FreeListEntry;
pub use texture::Texture;

// What a row of links holds in a test before a table is made over it: no link of a free list.
pub const LINK: FreeListEntry = FreeListEntry {
    previous: 0,
    next: 0,
};
