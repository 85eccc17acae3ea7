// Reading the command that a line writes.
ghost use Rattle.std.specs.Prelude.{◌≡◌, ◌+◌, ◌*◌, ◌<◌, ◌≤◌, ◌&&◌, length, MatchOption, MatchResult, nat_le};
ghost use Rattle.std.specs.Bool.{then_some};
ghost use Rattle.std.specs.Char.{is_ascii_digit, digit_value};
ghost use Rattle.scanner.specs.Commands.{command_of};
ghost use Rattle.scanner.specs.Legal.{Legal, Shares, scanned};
ghost use Rattle.scanner.specs.Leading.{Leads, NoneLeads, NumberAt, NoneAt};

use crate::command::{Command, Kind};
use text::MOST_DIGITS;

// The byte before each number.
const BLANK: u8 = b' ';

// The longest number that `text` begins with, and how many digits it has.
fn leading_number(text: &[u8]) -> Option<(u32, usize)>
    ensures { MatchOption result (NoneLeads text.now) (λ p. Leads text.now p.0 p.1) }
{
    // Number and digits grow together. In a fold over pairs the end of the digits would be one more case; by `enumerate`
    // the number would stand twice, in what is read so far and beside it.
    let mut number: u32 = 0;
    let mut digits = 0;
    for byte in text.iter().take(MOST_DIGITS) {
        let Some(longer) = and_digit(number, *byte) else {
            break;
        };
        number = longer;
        digits += 1;
    }
    (digits > 0).then_some((number, digits))
}

// The number with one digit more, where `byte` is a digit and there is room.
fn and_digit(number: u32, byte: u8) -> Option<u32>
    ensures { result ≡ then_some (is_ascii_digit byte && nat_le (number * 10 + digit_value byte) 4294967295) (number * 10 + digit_value byte) }
{
    number
        .checked_mul(10)?
        .checked_add(char::from(byte).to_digit(10)?)
}

// The rest of a line, from `end` on. Its errors are lengths of what is read, and no codes.
#[derive(Drop)]
struct Rest<'a> {
    line: &'a [u8],
    end: usize,
}

impl Rest<'_> {
    // The number that comes next, after a blank; or else how much of the line begins one with a number there.
    fn number(&mut self) -> Result<u32, usize>
        ensures line { self.new.line.now ≡ self.old.line.now }
        ensures read { MatchResult result (λ v. NumberAt self.old.line.now self.old.end v self.new.end) (λ n. NoneAt self.old.line.now self.old.end n) }
    {
        let Some(&BLANK) = self.line.get(self.end) else {
            return Err(self.end);
        };
        let (number, digits) = leading_number(&self.line[self.end + 1..]).ok_or(self.end + 1)?;
        self.end += 1 + digits;
        Ok(number)
    }

    // Nothing, where the line ends here; or else how much of it is read.
    fn finish(&self) -> Result<(), usize>
        ensures { MatchResult result (λ _. length self.now.line.now ≤ self.now.end) (λ n. (n ≡ self.now.end) × (n < length self.now.line.now)) }
    {
        if self.end < self.line.len() {
            return Err(self.end);
        }
        Ok(())
    }
}

// The command that a line writes; or else how much of the line begins a legal line. The error is that length
// and no code.
pub fn scan(line: &[u8]) -> Result<Command, usize>
    ensures value { result ≡ scanned line.now }
    ensures legal { MatchResult result (λ c. command_of line.now ≡ Some c) (λ n. (Legal line.now → ⊥) × Shares line.now n) }
{
    let letter = line.first().ok_or(0usize)?;
    let kind = Kind::try_from(char::from(*letter)).map_err(|_| 0usize)?;
    let mut rest = Rest { line, end: 1 };
    let command = match kind {
        Kind::Make => Command::Make(rest.number()?),
        Kind::Insert => Command::Insert(rest.number()?),
        Kind::InsertAt => Command::InsertAt(rest.number()?, rest.number()?),
        Kind::Remove => Command::Remove(rest.number()?),
        Kind::Get => Command::Get(rest.number()?),
        Kind::Replace => Command::Replace(rest.number()?, rest.number()?),
        Kind::NextFreeKey => Command::NextFreeKey,
        Kind::Len => Command::Len,
        Kind::List => Command::List,
    };
    rest.finish().map(|()| command)
}
