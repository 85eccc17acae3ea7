// One call given as a value, by the cells of the table, whatever those are.
ghost use Rattle.std.specs.Prelude.{◌≡◌};
ghost use Rattle.history.specs.Calls.{cells_answer, cells_after};
ghost use Rattle.history.specs.Histories.{Idle};

use history::{Answer, Call};
use refusal::Refusal;
use slotmap::SlotMap;

// Makes a call. A function of its own, so that what follows from the cells is proved once in `perform`, and not at each
// of its seven ends. Calls are values, so that a history is a list of them, and are matched here.
pub(crate) fn make<T: SlotMap>(
    table: &mut T,
    call: Call<T::Value>,
) -> Result<Answer<T::Value>, Refusal>
    ensures value { result ≡ cells_answer (T.SlotMap.layout table.old) call }
    ensures after { T.SlotMap.layout table.new ≡ cells_after (T.SlotMap.layout table.old) call }
    ensures kept { Idle (record { call = call; answer = result }) → T.SlotMap.stored table.new ≡ T.SlotMap.stored table.old }
    ensures beside { T.SlotMap.outside table.new ≡ T.SlotMap.outside table.old }
{
    Ok(match call {
        Call::Insert(value) => Answer::Key(table.insert(value)?),
        Call::InsertAt(key, value) => {
            table.insert_at(key, value)?;
            Answer::Done
        }
        Call::Remove(key) => Answer::Value(table.remove(key)?),
        Call::Replace(key, value) => Answer::Value(table.replace(key, value)?),
        Call::Get(key) => Answer::Value(table.get(key)?),
        Call::Contains(key) => Answer::Flag(table.contains(key)?),
        Call::NextFreeKey => Answer::Key(table.next_free_key()),
        Call::Len => Answer::Number(table.len()),
        Call::Capacity => Answer::Number(table.capacity()),
        Call::IsEmpty => Answer::Flag(table.is_empty()),
        Call::IsFull => Answer::Flag(table.is_full()),
        Call::Step(place) => Answer::Pair(table.next_available_key_after(place)),
    })
}
