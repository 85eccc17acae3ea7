// The numbered refusals of every call in this repository.
#![tactic(auto)]

ghost use Rattle.std.specs.Prelude.{◌≡◌, Some, None};
ghost use Rattle.refusal.specs.Told.{told, spelt};

use std::fmt;

// Why a call was refused. A refusal changes nothing. Two of them say where:
// a byte offset in an image, a length in a line.
#[derive(Clone, Copy, PartialEq, Eq, Debug)]
pub enum Refusal {
    // the key is at or past the table's capacity
    KeyPastTable,
    // the place is at or past the vector's or the queue's length
    PlacePastLength,
    // there is no space to push
    NoSpace,
    // an overflowing push into a queue of capacity 0
    NoCell,
    // the place is at or past the row's count
    NoPlace,
    // the plan asks for more keys than 65,535 or than a row has cells
    PlanTooLarge,
    // the buffer is too short for the image
    BufferTooShort,
    // the image breaks a rule of its form, at this byte offset
    ImageBroken(u64),
    // the image has another capacity or width than the table
    OtherShape,
    // the table to load into is not empty
    TableNotEmpty,
    // the cells fail the audit
    AuditFailed,
    // the line is not legal; so much of it begins a legal line
    LineNotLegal(u64),
}

impl Refusal {
    // The number that stands for this refusal wherever it is printed or compared. A method, since
    // `u32::from(refusal)` would not say which number.
    pub fn number(self) -> u32
        ensures { result ≡ (told self).0 }
    {
        match self {
            Refusal::KeyPastTable => 1,
            Refusal::PlacePastLength => 2,
            Refusal::NoSpace => 3,
            Refusal::NoCell => 4,
            Refusal::NoPlace => 5,
            Refusal::PlanTooLarge => 6,
            Refusal::BufferTooShort => 7,
            Refusal::ImageBroken(_) => 8,
            Refusal::OtherShape => 9,
            Refusal::TableNotEmpty => 10,
            Refusal::AuditFailed => 11,
            Refusal::LineNotLegal(_) => 12,
        }
    }

    // The offset or the length that this refusal carries, if it carries one. A method, since
    // `Option::from(refusal)` would not say what of it.
    pub fn carried(self) -> Option<u64>
        ensures { result ≡ (told self).1 }
    {
        match self {
            Refusal::ImageBroken(offset) => Some(offset),
            Refusal::LineNotLegal(length) => Some(length),
            _ => None,
        }
    }
}

// `refused N`, or `refused N M` where the refusal carries M.
impl fmt::Display for Refusal {
    ghost output = { λ r. Some (spelt r) };

    fn fmt<W: fmt::Write>(&self, f: &mut fmt::Formatter<W>) -> fmt::Result {
        let number = self.number();
        match self.carried() {
            Some(value) => write!(f, "refused {number} {value}"),
            None => write!(f, "refused {number}"),
        }
    }
}
