// Calls given as values, with the promise that they carry on.
ghost use Rattle.std.specs.Prelude.{◌≡◌, List, [], ◌∷◌, ◌++◌, ℕ, ◌<◌, min, length, take, drop};
ghost use Rattle.std.specs.List.{AllByRecursion};
ghost use Rattle.model.specs.Layouts.{SameBeyond};
ghost use Rattle.model.specs.Sound.{Follows};
ghost use Rattle.history.specs.Calls.{answer_to, after, cells_answer, cells_after, cells_answers, cells_after_all};
ghost use Rattle.history.specs.Histories.{Event, Idle};
ghost use Rattle.history.specs.Promise.{Reached, paired};

use crate::making::make;
use history::{Answer, Call};
use refusal::Refusal;
use slotmap::SlotMap;

// Makes one call, and answers it. A table that was reached by some history is then reached by that history
// and this call.
pub fn perform<T: SlotMap>(table: &mut T, call: Call<T::Value>) -> Result<Answer<T::Value>, Refusal>
    ensures value { result ≡ cells_answer (T.SlotMap.layout table.old) call }
    ensures after { T.SlotMap.layout table.new ≡ cells_after (T.SlotMap.layout table.old) call }
    ensures beyond { SameBeyond (T.SlotMap.layout table.old) (T.SlotMap.layout table.new) }
    ensures kept { Idle (record { call = call; answer = result }) → T.SlotMap.stored table.new ≡ T.SlotMap.stored table.old }
    ensures beside { T.SlotMap.outside table.new ≡ T.SlotMap.outside table.old }
    ensures means { Follows (T.SlotMap.layout table.old) result (T.SlotMap.layout table.new) (λ t. answer_to t call) (λ t. after t call) }
    ensures reached { (C : ℕ) (h : List (Event T.Value)) → Reached C h (T.SlotMap.layout table.old) → Reached C (h ++ ((record { call = call; answer = result }) ∷ [])) (T.SlotMap.layout table.new) }
{
    make(table, call)
}

// Makes calls one after another, as many as `answers` has places, and answers how many it made; their
// answers go to `answers`. A table that was reached by some history is then reached by that history and
// these calls.
// Two lists side by side: the calls are only read, and the answers written.
pub fn run<T: SlotMap>(
    table: &mut T,
    calls: &[Call<T::Value>],
    answers: &mut [Result<Answer<T::Value>, Refusal>],
) -> usize
    ensures count { result ≡ min (length calls.now) (length answers.old) }
    ensures value { answers.new ≡ cells_answers (T.SlotMap.layout table.old) (take result calls.now) ++ drop result answers.old }
    ensures after { T.SlotMap.layout table.new ≡ cells_after_all (T.SlotMap.layout table.old) (take result calls.now) }
    ensures beyond { SameBeyond (T.SlotMap.layout table.old) (T.SlotMap.layout table.new) }
    ensures kept { AllByRecursion Idle (paired (take result calls.now) (take result answers.new)) → T.SlotMap.stored table.new ≡ T.SlotMap.stored table.old }
    ensures beside { T.SlotMap.outside table.new ≡ T.SlotMap.outside table.old }
    ensures reached { (C : ℕ) (h : List (Event T.Value)) → Reached C h (T.SlotMap.layout table.old) → Reached C (h ++ paired (take result calls.now) (take result answers.new)) (T.SlotMap.layout table.new) }
{
    let count = calls.len().min(answers.len());
    // By place and not by `zip`, tried: a proof does not learn what the places of an `iter_mut` hold after a `zip`.
    for (i, call) in calls[..count].iter().enumerate() {
        answers[i] = perform(table, *call);
    }
    count
}
