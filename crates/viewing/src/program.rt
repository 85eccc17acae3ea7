// An image from where it is read to where its lines are written.
ghost use Rattle.std.specs.Prelude.{IfSome, OnOk};
ghost use Rattle.std.specs.Io.KnownBytes.{Appends};
ghost use Rattle.image.specs.Format.{Reading, Reads};
ghost use Rattle.viewing.specs.Viewed.{viewed};

use crate::view::print_image;
use image::MOST_BYTES;
use std::alloc::Global;
use std::io;
use std::io::{Read, Write};

// One byte more than the largest image has.
const MOST_READ: u64 = MOST_BYTES as u64 + 1;

// Reads an image from `reader`, at most one byte more than the largest has, and writes what is printed of it and
// nothing else.
pub fn run<R: Read, W: Write>(heap: Global, reader: &mut R, writer: &mut W) -> io::Result<()>
    ensures { OnOk result (IfSome (R.remaining reader.old) (λ input. (r : Reading) × Reads input r × Appends (W.contents writer.old) (W.contents writer.new) (viewed r))) }
{
    let mut input: Vec<u8> = Vec::new(heap);
    reader.take(MOST_READ).read_to_end(&mut input)?;
    let printed = print_image(heap, input.as_slice())?;
    writer.write_all(printed.as_bytes())
}
