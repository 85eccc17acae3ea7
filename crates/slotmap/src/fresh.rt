// The cells of a fresh table.
ghost use Rattle.std.specs.Prelude.{◌≡◌, ℕ, min, length};
ghost use Rattle.containers.specs.Queues.{queue as state};
ghost use Rattle.model.specs.Fresh.{written, slots_to};

use containers::MetaQueue;
use rows::Row;

// Writes what `cell` says of each key below `capacity` to the key's cell.
pub(crate) fn write_all<R: Row, F: Fn(u32) -> R::Item>(row: &mut R, capacity: u32, cell: F)
    requires { F.IsAlwaysCallable cell }
    ensures after { (f : ℕ → R.Item) → ((k : ℕ) (x : R.Item) → F.post cell k x → x ≡ f k) → R.Row.cells row.new ≡ written f capacity (R.Row.cells row.old) }
    ensures beside { R.Row.outside row.new ≡ R.Row.outside row.old }
{
    for key in 0..capacity {
        let _ = row.write(key as usize, cell(key));
    }
}

// A queue of at most `capacity` places, one for each cell, in which all slots wait, in order.
pub(crate) fn queue_all<Q: Row<Item = u32>>(slots: Q, capacity: u32) -> MetaQueue<Q>
    ensures capacity { (state Q.Row.cells result).capacity ≡ min (min capacity 65535) (length (Q.Row.cells slots)) }
    ensures after { state Q.Row.cells result ≡ slots_to (state Q.Row.cells result).capacity (state Q.Row.cells result).capacity (Q.Row.cells slots) }
    ensures beside { Q.Row.outside result.row ≡ Q.Row.outside slots }
{
    let mut queue = MetaQueue::with_capacity(slots, capacity);
    for slot in 0..queue.capacity() {
        let _ = queue.push(slot);
    }
    queue
}
