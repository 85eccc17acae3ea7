// A list of calls on a fresh table, with all that is promised of it.
ghost use Rattle.std.specs.Prelude.{◌≡◌, ◌++◌, min, length, take, drop};
ghost use Rattle.model.specs.Layouts.{SameBeyond};
ghost use Rattle.model.specs.Tables.{fresh};
ghost use Rattle.slotmap.specs.Over.{keys_over, bare_over, fresh_over};
ghost use Rattle.slotmap.specs.Laid.{laid};
ghost use Rattle.history.specs.Calls.{answers_to, cells_after_all};
ghost use Rattle.history.specs.Promise.{Reached, paired};

use crate::performing::run;
use history::{Answer, Call};
use refusal::Refusal;
use rows::{FreeListEntry, Row};
use slotmap::{MetaSlotMap, Plan, Rows, SlotMap};

// How many calls were made, and the table after them.
#[derive(Drop)]
pub struct Played<X: Row<Item = u32>, L: Row<Item = FreeListEntry>, D: Row, Q: Row<Item = u32>> {
    pub count: usize,
    pub table: MetaSlotMap<X, L, D, Q>,
}

// Makes a table over four rows, whatever their cells are, and then as many of the calls as `answers` has
// places, whose answers go there. It cannot fail.
pub fn play<X: Row<Item = u32>, L: Row<Item = FreeListEntry>, D: Row, Q: Row<Item = u32>>(
    plan: Plan,
    rows: Rows<X, L, D, Q>,
    calls: &[Call<D::Item>],
    answers: &mut [Result<Answer<D::Item>, Refusal>],
) -> Played<X, L, D, Q>
    ensures count { result.count ≡ min (length calls.now) (length answers.old) }
    ensures answered { answers.new ≡ answers_to (fresh (keys_over X.Row L.Row D.Row Q.Row plan.capacity rows)) (take result.count calls.now) ++ drop result.count answers.old }
    ensures after { laid X.Row.cells L.Row.cells D.Row.cells Q.Row.cells result.table ≡ cells_after_all (fresh_over X.Row L.Row D.Row Q.Row plan.capacity rows) (take result.count calls.now) }
    ensures reached { Reached (keys_over X.Row L.Row D.Row Q.Row plan.capacity rows) (paired (take result.count calls.now) (take result.count answers.new)) (laid X.Row.cells L.Row.cells D.Row.cells Q.Row.cells result.table) }
    ensures beyond { SameBeyond (bare_over X.Row L.Row D.Row Q.Row plan.capacity rows) (laid X.Row.cells L.Row.cells D.Row.cells Q.Row.cells result.table) }
    ensures outside { (X.Row.outside result.table.idx_to_data ≡ X.Row.outside rows.index) × ((L.Row.outside result.table.idx_to_data_free_list ≡ L.Row.outside rows.links) × ((D.Row.outside result.table.«data» ≡ D.Row.outside rows.values) × (Q.Row.outside result.table.data_next_free_index.row ≡ Q.Row.outside rows.slots))) }
{
    let mut table = plan.init(rows);
    let count = run(&mut table, calls, answers);
    Played { count, table }
}
