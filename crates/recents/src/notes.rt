// A queue of numbers, filled from lines and printed.
ghost use Rattle.std.specs.Prelude.{◌≡◌, ◌++◌, string_bytes, OnOk};
ghost use Rattle.std.specs.List.{flat_map};
ghost use Rattle.std.specs.Option.{option_to_list};
ghost use Rattle.containers.specs.Bounded.{latest};
ghost use Rattle.containers.specs.Queues.{queue as state, contents};
ghost use Rattle.text.specs.Lines.{lines};
ghost use Rattle.text.specs.Numbers.{number_of};
ghost use Rattle.recents.specs.Recent.{numbers, number_line, complaint, complained, complaints};

use containers::MetaQueue;
use rows::Row;
use std::alloc::AllocError;
use std::fmt::Write;
use text::{LineReader, number};

// Says that the line at `place` is no number.
fn complain(err: &mut String, place: usize) -> Result<(), AllocError>
    ensures { OnOk result (string_bytes err.new ≡ string_bytes err.old ++ complaint place) }
{
    writeln!(err, "line {place}: not a number")
}

// Prints `n` on a line of its own.
fn print_number(out: &mut String, n: u32) -> Result<(), AllocError>
    ensures { OnOk result (string_bytes out.new ≡ string_bytes out.old ++ number_line n) }
{
    writeln!(out, "{n}")
}

// Queues the number that `line` writes, or complains of the line.
fn note<R: Row<Item = u32>>(
    queue: &mut MetaQueue<R>,
    err: &mut String,
    line: &[u8],
    place: usize,
) -> Result<(), AllocError>
    ensures capacity { (state R.Row.cells queue.new).capacity ≡ (state R.Row.cells queue.old).capacity }
    ensures held { OnOk result (contents (state R.Row.cells queue.new) ≡ latest (state R.Row.cells queue.old).capacity (contents (state R.Row.cells queue.old) ++ option_to_list (number_of line.now))) }
    ensures err { OnOk result (string_bytes err.new ≡ string_bytes err.old ++ complained place line.now) }
{
    let Some(n) = number(line) else {
        return complain(err, place);
    };
    let _ = queue.push_with_overflow(n);
    Ok(())
}

// Queues the numbers that the lines of `text` write, and complains of the other lines.
pub(crate) fn note_lines<R: Row<Item = u32>>(
    queue: &mut MetaQueue<R>,
    err: &mut String,
    text: &[u8],
) -> Result<(), AllocError>
    ensures held { OnOk result (contents (state R.Row.cells queue.new) ≡ latest (state R.Row.cells queue.old).capacity (contents (state R.Row.cells queue.old) ++ numbers (lines text.now))) }
    ensures err { OnOk result (string_bytes err.new ≡ string_bytes err.old ++ complaints 1 (lines text.now)) }
{
    for (i, line) in LineReader::new(text).enumerate() {
        note(queue, err, line, i + 1)?;
    }
    Ok(())
}

// Takes the numbers out of the queue and prints them, oldest first.
pub(crate) fn print_numbers<R: Row<Item = u32>>(
    queue: &mut MetaQueue<R>,
    out: &mut String,
) -> Result<(), AllocError>
    ensures { OnOk result (string_bytes out.new ≡ string_bytes out.old ++ flat_map number_line (contents (state R.Row.cells queue.old))) }
{
    while let Some(n) = queue.pop() {
        print_number(out, n)?;
    }
    Ok(())
}
