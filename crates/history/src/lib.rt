// The calls of a table as values, and what is promised of a table after any list of them.
#![tactic(auto)]

ghost use Rattle.std.specs.Prelude.{◌≡◌};
ghost use Rattle.history.specs.Theorem.{HistoriesTell, TablesAgree};

mod calls;

pub use calls::{Answer, Call};

// After every list of calls the promise holds of cells that mean the table that got these calls.
pub fn histories_tell<V: Copy>(value: V) -> V
    ensures value { result ≡ value }
    ensures tell { HistoriesTell V }
{
    value
}

// Tables over any rows answer the same calls alike, so that a table can be moved to other rows.
pub fn tables_agree<V: Copy>(value: V) -> V
    ensures value { result ≡ value }
    ensures agree { TablesAgree V }
{
    value
}
