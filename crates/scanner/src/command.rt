// The commands of a script.
ghost use Rattle.std.specs.Prelude.{◌≡◌};
ghost use Rattle.std.specs.Result.{result_ok};

// What a command does, told by its letter.
#[derive(Clone, Copy, PartialEq, Eq, Debug)]
pub enum Kind {
    Make,
    Insert,
    InsertAt,
    Remove,
    Get,
    Replace,
    NextFreeKey,
    Len,
    List,
}

// A command with its numbers.
#[derive(Clone, Copy, PartialEq, Eq, Debug)]
pub enum Command {
    Make(u32),
    Insert(u32),
    InsertAt(u32, u32),
    Remove(u32),
    Get(u32),
    Replace(u32, u32),
    NextFreeKey,
    Len,
    List,
}

// A letter that stands for no command.
#[derive(Clone, Copy, PartialEq, Eq, Debug)]
pub struct UnknownLetter;

// The kind of command that a letter stands for.
impl TryFrom<char> for Kind {
    ghost use Rattle.scanner.specs.Commands.{kind_of};

    type Error = UnknownLetter;

    ghost try_from_gives = { λ letter result. result_ok result ≡ kind_of letter };

    fn try_from(letter: char) -> Result<Self, UnknownLetter> {
        match letter {
            'm' => Ok(Kind::Make),
            'i' => Ok(Kind::Insert),
            'a' => Ok(Kind::InsertAt),
            'r' => Ok(Kind::Remove),
            'g' => Ok(Kind::Get),
            'p' => Ok(Kind::Replace),
            'n' => Ok(Kind::NextFreeKey),
            'l' => Ok(Kind::Len),
            'k' => Ok(Kind::List),
            _ => Err(UnknownLetter),
        }
    }
}
