// Kinds of value: voices, deadlines, and one without a byte form.
use crate::LINK;
use crate::texture::Texture;
use codes::{Deadline, PackedRow, Voice};
use rows::{InlineRow, SliceRow};
use slotmap::{Cursor, Plan, Rows, SlotMap};

const VOICE: Voice = Voice {
    first_sample: 4000,
    samples_left: 300,
    left_gain: -3,
    right_gain: 32767,
};

#[test]
fn voices_in_bytes(rt: HostRuntime) {
    let mut bytes = [0; 25];
    let voices: PackedRow<Voice, SliceRow<u8>> = PackedRow::new(SliceRow::new(&mut bytes));
    let mut table = Plan::new(64).init(Rows {
        index: InlineRow::filled(0),
        links: InlineRow::filled(LINK),
        values: voices,
        slots: InlineRow::filled(0),
    });
    assert_eq!(rt; table.capacity(), 2);
    assert_eq!(rt; table.insert_at(1, VOICE), Ok(()));
    assert_eq!(rt; table.get(1), Ok(Some(VOICE)));
    assert_eq!(rt; table.contains(0), Ok(false));
}

#[test]
fn deadlines(rt: HostRuntime) {
    let mut frames: [Deadline; 3] = [0; 3];
    let mut table = Plan::new(3).init(Rows {
        index: InlineRow::filled(0),
        links: InlineRow::filled(LINK),
        values: SliceRow::new(&mut frames),
        slots: InlineRow::filled(0),
    });
    assert_eq!(rt; table.insert(u64::MAX), Ok(Some(0)));
    assert_eq!(rt; table.replace(0, 5), Ok(Some(u64::MAX)));
    assert_eq!(rt; table.replace(1, 5), Ok(None));
    assert_eq!(rt; table.remove(0), Ok(Some(5)));
    assert!(rt; table.is_empty());
}

#[test]
fn textures_by_a_cursor(rt: HostRuntime) {
    let first = Texture {
        page: 9,
        wide: true,
    };
    let second = Texture {
        page: 8,
        wide: false,
    };
    let mut table = Plan::new(5).init(Rows {
        index: InlineRow::filled(0),
        links: InlineRow::filled(LINK),
        values: InlineRow::filled(first),
        slots: InlineRow::filled(0),
    });
    assert_eq!(rt; table.insert_at(4, second), Ok(()));
    assert_eq!(rt; table.insert_at(1, first), Ok(()));
    let mut cursor = Cursor::new();
    assert_eq!(rt; cursor.next(&mut table), Some((1, first)));
    assert_eq!(rt; table.remove(1), Ok(Some(first)));
    assert_eq!(rt; cursor.next(&mut table), Some((4, second)));
    assert_eq!(rt; cursor.next(&mut table), None);
    assert_eq!(rt; table.next_free_key(), Some(1));
}
