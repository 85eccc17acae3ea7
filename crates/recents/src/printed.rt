// What the program prints.
ghost use Rattle.std.specs.Prelude.{◌≡◌, IfOk};
ghost use Rattle.recents.specs.Recent.{said, recent};

use crate::notes::{note_lines, print_numbers};
use containers::MetaQueue;
use rows::InlineRow;
use std::alloc::{AllocError, Global};

// What goes to standard output, and what to standard error.
#[derive(Drop)]
pub struct Printed {
    pub out: String,
    pub err: String,
}

// The last 64 numbers of a text, one a line, and a complaint about each line that is no number.
pub fn last_numbers(heap: Global, text: &[u8]) -> Result<Printed, AllocError>
    ensures { IfOk result (λ p. said p ≡ recent text.now) }
{
    let mut queue = MetaQueue::new(InlineRow::filled(0));
    let mut err = String::new(heap);
    note_lines(&mut queue, &mut err, text)?;
    let mut out = String::new(heap);
    print_numbers(&mut queue, &mut out)?;
    Ok(Printed { out, err })
}
