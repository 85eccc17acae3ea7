// A table that is asked for, and the table that is made of it.
ghost use Rattle.std.specs.Prelude.{◌≡◌, [], length};
ghost use Rattle.model.specs.Fresh.{least, plan_answer};
ghost use Rattle.model.specs.Layouts.{SameBeyond};
ghost use Rattle.model.specs.Sound.{Means};
ghost use Rattle.model.specs.Tables.{fresh};
ghost use Rattle.history.specs.Promise.{Reached};
ghost use Rattle.slotmap.specs.Laid.{laid};
ghost use Rattle.slotmap.specs.Over.{keys_over, bare_over, fresh_over};
ghost use Rattle.rows.specs.Kept.{Kept};

use crate::fresh::{queue_all, write_all};
use crate::table::{MetaSlotMap, Rows};
use containers::fitting;
use freelist::{first_key, fresh_link};
use refusal::Refusal;
use rows::{FreeListEntry, NONE, Row};

// A table of so many keys, not made yet.
#[derive(Drop)]
pub struct Plan {
    capacity: u32,
}

// The capacity of a table over four rows, as `check` has them: the least of what is asked for, 65,535 and the counts.
fn capacity_over<X: Row<Item = u32>, L: Row<Item = FreeListEntry>, D: Row, Q: Row<Item = u32>>(
    asked: u32,
    index: &mut X,
    links: &mut L,
    values: &mut D,
    slots: &mut Q,
) -> u32
    ensures value { result ≡ least asked (length (X.Row.cells index.old)) (length (L.Row.cells links.old)) (length (D.Row.cells values.old)) (length (Q.Row.cells slots.old)) }
    ensures index { Kept X.Row index.old index.new }
    ensures links { Kept L.Row links.old links.new }
    ensures values { Kept D.Row values.old values.new }
    ensures slots { Kept Q.Row slots.old slots.new }
{
    let shortest = index
        .count()
        .min(links.count())
        .min(values.count())
        .min(slots.count());
    fitting(asked, shortest)
}

impl Plan {
    pub fn new(capacity: u32) -> Plan
        ensures { result.capacity ≡ capacity }
    {
        Plan { capacity }
    }

    // Whether these rows have a cell for each key; refused where they do not, or where more than
    // 65,535 keys are asked for. Nothing changes. Four rows one by one: a `Rows` would ask more of a caller, who may
    // have them on loan.
    pub fn check<X: Row<Item = u32>, L: Row<Item = FreeListEntry>, D: Row, Q: Row<Item = u32>>(
        &self,
        index: &mut X,
        links: &mut L,
        values: &mut D,
        slots: &mut Q,
    ) -> Result<(), Refusal>
        ensures value { result ≡ plan_answer self.now.capacity (length (X.Row.cells index.old)) (length (L.Row.cells links.old)) (length (D.Row.cells values.old)) (length (Q.Row.cells slots.old)) }
        ensures index { Kept X.Row index.old index.new }
        ensures links { Kept L.Row links.old links.new }
        ensures values { Kept D.Row values.old values.new }
        ensures slots { Kept Q.Row slots.old slots.new }
    {
        let capacity = capacity_over(self.capacity, index, links, values, slots);
        if self.capacity == capacity {
            Ok(())
        } else {
            Err(Refusal::PlanTooLarge)
        }
    }

    // Makes the table over four rows. Its capacity is the least of what is asked for, 65,535 and
    // the counts of the rows; no cell past it is touched, and no value is written.
    pub fn init<X: Row<Item = u32>, L: Row<Item = FreeListEntry>, D: Row, Q: Row<Item = u32>>(
        self,
        mut rows: Rows<X, L, D, Q>,
    ) -> MetaSlotMap<X, L, D, Q>
        ensures cells { laid X.Row.cells L.Row.cells D.Row.cells Q.Row.cells result ≡ fresh_over X.Row L.Row D.Row Q.Row self.capacity rows }
        ensures means { Means (laid X.Row.cells L.Row.cells D.Row.cells Q.Row.cells result) (fresh (keys_over X.Row L.Row D.Row Q.Row self.capacity rows)) }
        ensures reached { Reached (keys_over X.Row L.Row D.Row Q.Row self.capacity rows) [] (laid X.Row.cells L.Row.cells D.Row.cells Q.Row.cells result) }
        ensures beyond { SameBeyond (bare_over X.Row L.Row D.Row Q.Row self.capacity rows) (laid X.Row.cells L.Row.cells D.Row.cells Q.Row.cells result) }
        ensures unwritten { D.Row.stored result.«data» ≡ D.Row.stored rows.values }
        ensures outside { (X.Row.outside result.idx_to_data ≡ X.Row.outside rows.index) × ((L.Row.outside result.idx_to_data_free_list ≡ L.Row.outside rows.links) × ((D.Row.outside result.«data» ≡ D.Row.outside rows.values) × (Q.Row.outside result.data_next_free_index.row ≡ Q.Row.outside rows.slots))) }
    {
        let capacity = capacity_over(
            self.capacity,
            &mut rows.index,
            &mut rows.links,
            &mut rows.values,
            &mut rows.slots,
        );
        write_all(&mut rows.index, capacity, |_| NONE);
        write_all(&mut rows.links, capacity, |key| fresh_link(key, capacity));
        MetaSlotMap {
            idx_to_data: rows.index,
            idx_to_data_free_list: rows.links,
            data: rows.values,
            data_next_free_index: queue_all(rows.slots, capacity),
            idx_to_data_free_list_head: first_key(capacity),
            len: 0,
        }
    }
}
