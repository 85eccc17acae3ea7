// The calls of a table, and their answers, as values.
ghost use Rattle.std.specs.Prelude.{Some};
ghost use Rattle.history.specs.Said.{said};

use std::fmt;

// A call of a table that holds values of kind `V`. A step is that of a cursor which stands at
// the given place. Calls are values and no closures, since a history is a list of them.
#[derive(Clone, Copy, PartialEq, Eq, Debug)]
pub enum Call<V> {
    Insert(V),
    InsertAt(u32, V),
    Remove(u32),
    Replace(u32, V),
    Get(u32),
    Contains(u32),
    NextFreeKey,
    Len,
    Capacity,
    IsEmpty,
    IsFull,
    Step(u32),
}

// What is answered to a call that is not refused, so that a call gets a `Result<Answer<V>, Refusal>`.
#[derive(Clone, Copy, PartialEq, Eq, Debug)]
pub enum Answer<V> {
    // the call was made, and has no more to say
    Done,
    Key(Option<u32>),
    Value(Option<V>),
    Pair(Option<(u32, V)>),
    Flag(bool),
    Number(u32),
}

// `ok`, a number, `key=value`, `yes` or `no`; or `none`.
impl fmt::Display for Answer<u32> {
    ghost output = { λ a. Some (said a) };

    fn fmt<W: fmt::Write>(&self, f: &mut fmt::Formatter<W>) -> fmt::Result {
        match *self {
            Answer::Done => write!(f, "ok"),
            Answer::Key(Some(n)) | Answer::Value(Some(n)) | Answer::Number(n) => write!(f, "{n}"),
            Answer::Pair(Some((key, value))) => write!(f, "{key}={value}"),
            Answer::Flag(true) => write!(f, "yes"),
            Answer::Flag(false) => write!(f, "no"),
            Answer::Key(None) | Answer::Value(None) | Answer::Pair(None) => write!(f, "none"),
        }
    }
}
