// Images in lines of text, from the bytes read to the bytes printed.
#![tactic(auto)]

mod lines;
mod program;
mod view;

pub use program::run;
pub use view::print_image;
