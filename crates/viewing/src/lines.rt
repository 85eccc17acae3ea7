// The line of a record.
ghost use Rattle.std.specs.Prelude.{◌≡◌, ◌++◌, List, string_bytes, OnOk};
ghost use Rattle.std.specs.List.{flat_map};
ghost use Rattle.image.specs.Pieces.{Piece, piece};
ghost use Rattle.image.specs.Walks.{Has};
ghost use Rattle.viewing.specs.Viewed.{two_digits, line};

use image::{Record, Records};
use std::alloc::AllocError;
use std::fmt::Write;

// Prints a byte in two hexadecimal digits.
#[tactic(auto, using(std::proofs::lemmas::Fmt::hex_byte))]
fn print_byte(out: &mut String, byte: u8) -> Result<(), AllocError>
    ensures { OnOk result (string_bytes out.new ≡ string_bytes out.old ++ two_digits byte) }
{
    write!(out, "{byte:02x}")
}

// Prints bytes, each in two hexadecimal digits.
fn print_bytes(out: &mut String, bytes: &[u8]) -> Result<(), AllocError>
    ensures { OnOk result (string_bytes out.new ≡ string_bytes out.old ++ flat_map two_digits bytes.now) }
{
    for byte in bytes {
        print_byte(out, *byte)?;
    }
    Ok(())
}

// Prints a record on a line of its own.
fn print_record(out: &mut String, item: Record) -> Result<(), AllocError>
    ensures { OnOk result (string_bytes out.new ≡ string_bytes out.old ++ line (piece item.entry)) }
{
    match item {
        Record::Header(header) => {
            let width = header.width;
            let capacity = header.capacity;
            let held = header.held;
            writeln!(out, "form 1 width {width} capacity {capacity} held {held}")
        }
        Record::Value { key, bytes } => {
            write!(out, "{key}: ")?;
            print_bytes(out, bytes)?;
            out.push_str("\n")
        }
        Record::End => out.push_str("ok\n"),
    }
}

// Prints the records of a walk, each on a line of its own.
pub(crate) fn print_records(out: &mut String, records: Records) -> Result<(), AllocError>
    ensures { (ps : List Piece) → Has records.entry ps → OnOk result (string_bytes out.new ≡ string_bytes out.old ++ flat_map line ps) }
{
    for item in records {
        print_record(out, item)?;
    }
    Ok(())
}
