// A row of any coded kind over any row of bytes.
ghost use Rattle.std.specs.Prelude.{◌≡◌, ◌+◌, ◌*◌, ◌/◌, ◌^◌, ◌<◌, ◌≤◌, false, length, is_ok, if◌then◌else◌, slice_set};
ghost use Rattle.std.proofs.Math.Seq.{paste};
ghost use Rattle.rows.specs.Cells.{window, write_at};
ghost use Rattle.rows.specs.Kept.{Kept};
ghost use Rattle.codes.specs.Packed.{packed, Behind, behind};

use crate::bytes::ByteArray;
use crate::coded::Coded;
use refusal::Refusal;
use rows::Row;
use std::marker::PhantomData;

// Cell i is the item in bytes i * w to i * w + w - 1, where w is the kind's width.
#[derive(Drop)]
pub struct PackedRow<K: Coded, B: Row<Item = u8>> {
    bytes: B,
    kind: PhantomData<K>,
}

// How many whole cells there are.
fn whole<K: Coded, B: Row<Item = u8>>(bytes: &mut B) -> usize
    ensures value { result ≡ length (B.Row.cells bytes.old) / K.Bytes.ByteArray.size }
    ensures fits { length (B.Row.cells bytes.old) < 2 ^ 64 }
    ensures some { 0 < K.Bytes.ByteArray.size }
    ensures kept { Kept B.Row bytes.old bytes.new }
{
    bytes.count() / usize::from(K::width())
}

// The string of bytes that begins at `at`.
fn gather<A: ByteArray, B: Row<Item = u8>>(bytes: &mut B, at: usize) -> A
    requires { (at + A.ByteArray.size ≤ length (B.Row.cells bytes.old)) × (length (B.Row.cells bytes.old) < 2 ^ 64) }
    ensures value { A.ByteArray.list result ≡ window at A.ByteArray.size (B.Row.cells bytes.old) }
    ensures kept { Kept B.Row bytes.old bytes.new }
{
    let mut string = A::zeros();
    // Places, since a row has no iterator: the next place may lie anywhere below it.
    for i in 0..A::size() {
        // Never refused, as the proof knows: with a value in the refusal's place each byte would be tested as it is read.
        let Ok(byte) = bytes.read(at + i) else {
            unreachable();
        };
        string.put(i, byte);
    }
    string
}

// Writes `string` over the bytes from `at` on.
fn scatter<A: ByteArray, B: Row<Item = u8>>(bytes: &mut B, at: usize, string: A)
    requires { (at + A.ByteArray.size ≤ length (B.Row.cells bytes.old)) × ((length (B.Row.cells bytes.old) < 2 ^ 64) × (length (A.ByteArray.list string) ≡ A.ByteArray.size)) }
    ensures after { B.Row.cells bytes.new ≡ paste (B.Row.cells bytes.old) at (A.ByteArray.list string) A.ByteArray.size }
    ensures beside { B.Row.outside bytes.new ≡ B.Row.outside bytes.old }
{
    for i in 0..A::size() {
        let _ = bytes.write(at + i, string.at(i));
    }
}

impl<K: Coded, B: Row<Item = u8>> PackedRow<K, B> {
    // A row of the items in the whole groups of bytes.
    pub fn new(bytes: B) -> Self
        ensures cells { packed K.Bytes.ByteArray.size K.Coded.item (B.Row.cells result.bytes) ≡ packed K.Bytes.ByteArray.size K.Coded.item (B.Row.cells bytes) }
        ensures row { result.bytes ≡ bytes }
    {
        PackedRow {
            bytes,
            kind: PhantomData,
        }
    }

    // The row of bytes below, with all its bytes.
    pub fn into_row(self) -> B
        ensures row { result ≡ self.bytes }
        ensures cells { B.Row.cells result ≡ B.Row.cells self.bytes }
    {
        let PackedRow { bytes, .. } = self;
        bytes
    }
}

impl<K: Coded, B: Row<Item = u8>> Row for PackedRow<K, B> {
    type Item = K;

    ghost cells = { λ s. packed K.Bytes.ByteArray.size K.Coded.item (B.Row.cells s.bytes) };

    ghost Outside = { Behind B.Row.Outside };

    ghost outside = { λ s. behind (B.Row.outside s.bytes) K.Bytes.ByteArray.size (B.Row.cells s.bytes) };

    ghost Stored = { B.Row.Stored };

    ghost stored = { λ s. B.Row.stored s.bytes };

    fn count(&mut self) -> usize {
        whole::<K, B>(&mut self.bytes)
    }

    fn read(&mut self, place: usize) -> Result<K, Refusal> {
        if place < whole::<K, B>(&mut self.bytes) {
            let at = place * usize::from(K::width());
            Ok(K::decode(gather(&mut self.bytes, at)))
        } else {
            Err(Refusal::NoPlace)
        }
    }

    // The bytes of `value` are stored, and no other byte changes. Where the place is refused, nothing
    // is written to the bytes below.
    fn write(&mut self, place: usize, value: K) -> Result<(), Refusal>
        ensures value { result ≡ write_at (packed K.Bytes.ByteArray.size K.Coded.item (B.Row.cells self.old.bytes)) place }
        ensures after { packed K.Bytes.ByteArray.size K.Coded.item (B.Row.cells self.new.bytes) ≡ slice_set (packed K.Bytes.ByteArray.size K.Coded.item (B.Row.cells self.old.bytes)) place value }
        ensures kept { is_ok result ≡ false → B.Row.stored self.new.bytes ≡ B.Row.stored self.old.bytes }
        ensures beside { behind (B.Row.outside self.new.bytes) K.Bytes.ByteArray.size (B.Row.cells self.new.bytes) ≡ behind (B.Row.outside self.old.bytes) K.Bytes.ByteArray.size (B.Row.cells self.old.bytes) }
        ensures bytes { B.Row.cells self.new.bytes ≡ (if is_ok result then paste (B.Row.cells self.old.bytes) (place * K.Bytes.ByteArray.size) (K.Coded.bytes value) K.Bytes.ByteArray.size else B.Row.cells self.old.bytes) }
    {
        if place < whole::<K, B>(&mut self.bytes) {
            let at = place * usize::from(K::width());
            scatter(&mut self.bytes, at, value.encode());
            Ok(())
        } else {
            Err(Refusal::NoPlace)
        }
    }
}
