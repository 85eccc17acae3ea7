// A walk over the records of an image.
ghost use Rattle.std.specs.Prelude.{◌≡◌, ℕ, ◌<◌, ◌++◌, List, [], length, MatchOption};
ghost use Rattle.image.specs.declared.header.Header.{Header};
ghost use Rattle.image.specs.declared.walk.Stage.TheVariants.{Start, Done};
ghost use Rattle.image.specs.Format.{Entry, Image};
ghost use Rattle.image.specs.Pieces.{piece, piece_bytes, pieces};
ghost use Rattle.image.specs.Walks.{Comes, NoneComes, Small, Has};

use crate::header::{Header, split_header};
use crate::record::{Record, split_end, split_value};

// Which record comes next.
#[derive(Clone, Copy, PartialEq, Eq, Debug)]
enum Stage {
    // the header
    Start,
    // so many value records, with keys from `low` on, and then the end
    Values { header: Header, low: u16, due: u16 },
    // none
    Done(Header),
}

impl Stage {
    // The record that comes next, at the front of `left`, with the stage and the bytes after it.
    fn split(self, left: &[u8]) -> Option<(Record<'_>, Stage, &[u8])>
        ensures small { Small self }
        ensures comes { MatchOption result (NoneComes self left.now) (λ p. Comes self (piece p.0) p.1 × (left.now ≡ piece_bytes (piece p.0) ++ p.2.now)) }
    {
        match self {
            Stage::Start => {
                let (header, rest) = split_header(left)?;
                let next = Stage::Values {
                    header,
                    low: 0,
                    due: header.held,
                };
                Some((Record::Header(header), next, rest))
            }
            Stage::Values { header, due: 0, .. } => {
                let rest = split_end(left)?;
                Some((Record::End, Stage::Done(header), rest))
            }
            Stage::Values { header, low, due } => {
                let ((key, bytes), rest) = split_value(left, header, low)?;
                let next = Stage::Values {
                    header,
                    low: key + 1,
                    due: due - 1,
                };
                Some((Record::Value { key, bytes }, next, rest))
            }
            Stage::Done(_) => None,
        }
    }
}

// What is left of the records of an image.
#[derive(Debug, Drop)]
pub struct Records<'a> {
    stage: Stage,
    left: &'a [u8],
}

impl<'a> Records<'a> {
    // All records of `image` are left. If it is an image, they are those of its entries.
    pub fn new(image: &'a [u8]) -> Self
        ensures stage { result.stage ≡ Start }
        ensures left { result.left.now ≡ image.now }
        ensures holds { (w C : ℕ) (es : List Entry) → Image image.now w C es → Has result (pieces w C es) }
    {
        Records {
            stage: Stage::Start,
            left: image,
        }
    }

    // The bytes that are left.
    pub(crate) fn left(&self) -> &'a [u8]
        ensures { result.now ≡ self.now.left.now }
    {
        self.left
    }

    // The header, if the walk is past the end and no byte is left.
    pub(crate) fn header_at_end(&self) -> Option<Header>
        ensures { MatchOption result ((h : Header) → self.now.stage ≡ Done h → 0 < length self.now.left.now) (λ h. (self.now.stage ≡ Done h) × (self.now.left.now ≡ [])) }
    {
        match (self.stage, self.left) {
            (Stage::Done(header), []) => Some(header),
            _ => None,
        }
    }
}

impl<'a> Iterator for Records<'a> {
    ghost use Rattle.std.specs.Iterator.{at_most};
    ghost use Rattle.image.specs.Walks.{Steps};

    type Item = Record<'a>;

    ghost next_gives = { Steps };

    ghost remaining = { λ records. at_most (length records.left.now) };

    // The record that comes next, or none where none that may come stands.
    fn next(&mut self) -> Option<Record<'a>> {
        let (record, stage, left) = self.stage.split(self.left)?;
        *self = Records { stage, left };
        Some(record)
    }
}
