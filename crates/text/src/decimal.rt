// Numbers of 32 bits, written in decimal.
ghost use Rattle.std.specs.Prelude.{◌≡◌};
ghost use Rattle.text.specs.Numbers.{number_of};

// The most digits that a number is written with.
pub const MOST_DIGITS: usize = 10;

// The number that `line` writes, if it is 1 to 10 digits of value at most 4,294,967,295.
pub fn number(line: &[u8]) -> Option<u32>
    ensures { result ≡ number_of line.now }
{
    if line.is_empty() || line.len() > MOST_DIGITS {
        return None;
    }
    // Ten digits have room in 64 bits. A parse by the library would read the bytes three times.
    let mut value: u64 = 0;
    for byte in line {
        value = value * 10 + u64::from(char::from(*byte).to_digit(10)?);
    }
    u32::try_from(value).ok()
}
