// A script from where it is read to where it is written.
ghost use Rattle.std.specs.Prelude.{IfSome, OnOk};
ghost use Rattle.std.specs.Io.KnownBytes.{Appends};
ghost use Rattle.script.specs.Transcript.{transcript};

use crate::transcript::{MOST_BYTES, transcribe};
use std::alloc::Global;
use std::io;
use std::io::{Read, Write};

// One byte more than the longest script has.
const MOST_READ: u64 = MOST_BYTES as u64 + 1;

// Carries out the script that `reader` gives, of which it reads at most 65,537 bytes, and writes what it prints and
// nothing else.
pub fn run<R: Read, W: Write>(heap: Global, reader: &mut R, writer: &mut W) -> io::Result<()>
    ensures { OnOk result (IfSome (R.remaining reader.old) (λ input. Appends (W.contents writer.old) (W.contents writer.new) (transcript input))) }
{
    let mut input: Vec<u8> = Vec::new(heap);
    reader.take(MOST_READ).read_to_end(&mut input)?;
    let printed = transcribe(heap, input.as_slice())?;
    writer.write_all(printed.as_bytes())
}
