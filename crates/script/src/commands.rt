// One command of a script, on the script's table.
ghost use Rattle.std.specs.Prelude.{◌≡◌, [], length, string_bytes};
ghost use Rattle.history.specs.Calls.{answer_to};
ghost use Rattle.script.specs.Sessions.{begun, with_call, session_after};
ghost use Rattle.script.specs.Steps.{Promised, Does, keys_layout};
ghost use Rattle.script.specs.Transcript.{call_said, pairs_from, listed, said_by};
ghost use Rattle.scanner.specs.declared.command.Command.TheVariants.{Make};

use history::Call;
use play::perform;
use rows::{FreeListEntry, InlineRow, NO_LINK, NONE};
use scanner::Command;
use slotmap::{Cursor, MetaSlotMap, Plan, Rows, SlotMap};
use std::alloc::{AllocError, Global};
use std::fmt::Write;

// The table of a script: numbers for up to 64 keys, inside itself.
pub(crate) type Keys = MetaSlotMap<
    InlineRow<u32>,
    InlineRow<FreeListEntry>,
    InlineRow<u32>,
    InlineRow<u32>,
>;

// Rows for a table of a script. Inline, so that they are made where the table takes them, and not copied there.
#[inline(always)]
fn key_rows() -> Rows<InlineRow<u32>, InlineRow<FreeListEntry>, InlineRow<u32>, InlineRow<u32>>
    ensures index { length result.index.cells ≡ 64 }
    ensures links { length result.links.cells ≡ 64 }
    ensures values { length result.values.cells ≡ 64 }
    ensures slots { length result.slots.cells ≡ 64 }
{
    Rows {
        index: InlineRow::filled(NONE),
        links: InlineRow::filled(NO_LINK),
        values: InlineRow::filled(0),
        slots: InlineRow::filled(0),
    }
}

// A script that is carried out: what is printed of it so far, and its table.
#[derive(Drop)]
pub(crate) struct Script<T> {
    pub(crate) out: String,
    table: T,
}

impl<T: SlotMap<Value = u32>> Script<T> {
    // Makes a call, and prints its answer.
    fn answer_call(&mut self, call: Call<u32>) -> Result<(), AllocError>
        ensures { Does T.SlotMap.layout self.old result self.new (λ t. call_said (answer_to t call)) (λ s. with_call s call) }
    {
        match perform(&mut self.table, call) {
            Ok(answer) => write!(self.out, "{answer}"),
            Err(refusal) => write!(self.out, "{refusal}"),
        }
    }

    // Prints the pairs of the holding keys, parted by blanks, or a dash.
    fn print_pairs(&mut self) -> Result<(), AllocError>
        ensures { Does T.SlotMap.layout self.old result self.new (λ t. listed (pairs_from t 0)) (λ s. s) }
    {
        let mut cursor = Cursor::new();
        let Some((key, value)) = cursor.next(&mut self.table) else {
            return write!(self.out, "-");
        };
        write!(self.out, "{key}={value}")?;
        while let Some((key, value)) = cursor.next(&mut self.table) {
            write!(self.out, " {key}={value}")?;
        }
        Ok(())
    }
}

impl Script<Keys> {
    // A script that is not begun: its table has no keys.
    pub(crate) fn new(heap: Global) -> Self
        ensures out { string_bytes result.out ≡ [] }
        ensures table { Promised (begun 0) (keys_layout result.table) }
    {
        Script {
            out: String::new(heap),
            table: Plan::new(0).init(key_rows()),
        }
    }

    // Makes the script a new table of `capacity` keys, at most 64; else the old one stays.
    fn make_table(&mut self, capacity: u32) -> Result<(), AllocError>
        ensures { Does keys_layout self.old result self.new (λ t. said_by t (Make capacity)) (λ s. session_after s (Make capacity)) }
    {
        let mut rows = key_rows();
        let plan = Plan::new(capacity);
        match plan.check(
            &mut rows.index,
            &mut rows.links,
            &mut rows.values,
            &mut rows.slots,
        ) {
            Ok(()) => {
                self.table = plan.init(rows);
                write!(self.out, "ok")
            }
            Err(refusal) => write!(self.out, "{refusal}"),
        }
    }

    // Carries out a command, and prints what comes of it.
    pub(crate) fn carry_out(&mut self, command: Command) -> Result<(), AllocError>
        ensures { Does keys_layout self.old result self.new (λ t. said_by t command) (λ s. session_after s command) }
    {
        // A match, since `m` and `k` are no calls; and no conversion, since both types are of other crates.
        let call = match command {
            Command::Make(capacity) => return self.make_table(capacity),
            Command::Insert(value) => Call::Insert(value),
            Command::InsertAt(key, value) => Call::InsertAt(key, value),
            Command::Remove(key) => Call::Remove(key),
            Command::Get(key) => Call::Get(key),
            Command::Replace(key, value) => Call::Replace(key, value),
            Command::NextFreeKey => Call::NextFreeKey,
            Command::Len => Call::Len,
            Command::List => return self.print_pairs(),
        };
        self.answer_call(call)
    }
}
