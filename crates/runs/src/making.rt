// Calls given as values, made on a queue.
ghost use Rattle.std.specs.Prelude.{◌≡◌, true, false, is_ok};
ghost use Rattle.containers.specs.Bounded.{Means};
ghost use Rattle.containers.specs.Queues.{queue as state, contents, Backed};
ghost use Rattle.runs.specs.Calls.{only_reads, answer_to, held_after, cells_answer, cells_after};

use crate::calls::QueueCall;
use containers::MetaQueue;
use history::Answer;
use refusal::Refusal;
use rows::Row;

// Makes one call, and answers it as a list that may have so many elements does. Calls are values, so that a run is a
// list of them, and are matched here.
pub fn perform<R: Row<Item = u32>>(
    queue: &mut MetaQueue<R>,
    call: QueueCall,
) -> Result<Answer<u32>, Refusal>
    ensures value { result ≡ cells_answer (state R.Row.cells queue.old) call }
    ensures after { state R.Row.cells queue.new ≡ cells_after (state R.Row.cells queue.old) call }
    ensures means { Means contents Backed (state R.Row.cells queue.old) result (state R.Row.cells queue.new) (λ xs. answer_to (state R.Row.cells queue.old).capacity xs call) (λ xs. held_after (state R.Row.cells queue.old).capacity xs call) }
    ensures untouched { only_reads call ≡ true → R.Row.stored queue.new.row ≡ R.Row.stored queue.old.row }
    ensures kept { is_ok result ≡ false → R.Row.stored queue.new.row ≡ R.Row.stored queue.old.row }
    ensures beside { R.Row.outside queue.new.row ≡ R.Row.outside queue.old.row }
{
    Ok(match call {
        QueueCall::Push(value) => {
            queue.push(value)?;
            Answer::Done
        }
        QueueCall::PushWithOverflow(value) => Answer::Value(queue.push_with_overflow(value)?),
        QueueCall::Pop => Answer::Value(queue.pop()),
        QueueCall::Peek => Answer::Value(queue.peek()),
        QueueCall::Get(index) => Answer::Number(queue.get(index)?),
    })
}
