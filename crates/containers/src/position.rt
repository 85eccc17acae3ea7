// Where a queue begins and ends in its row.
ghost use Rattle.std.specs.Prelude.{◌≡◌, ◌+◌, ◌-◌, ◌%◌, ◌<◌, ◌≤◌};

// `len` elements lie before place `start`, round the ring of `capacity` places. A position
// that breaks the facts below cannot be made. Field by field below: `..self` beside facts, tried, is not supported.
#[derive(Clone, Copy)]
pub(crate) struct Position {
    pub capacity: u32,
    pub start: u32,
    pub len: u32,
    ghost small: { capacity ≤ 65535 },
    ghost begins: { start ≤ capacity - 1 },
    ghost within: { len ≤ capacity },
}

impl Position {
    // A ring of which no place is used yet.
    pub(crate) fn unused(capacity: u32) -> Position
        requires { capacity ≤ 65535 }
        ensures capacity { result.capacity ≡ capacity }
        ensures start { result.start ≡ 0 }
        ensures len { result.len ≡ 0 }
    {
        Position {
            capacity,
            start: 0,
            len: 0,
        }
    }

    // The place of the element `index` from the oldest.
    pub(crate) fn place_of(self, index: u32) -> u32
        requires { index < self.len }
        ensures value { result ≡ (self.start + self.capacity - self.len + index) % self.capacity }
        ensures bound { result < self.capacity }
    {
        let place = self.start + self.capacity - self.len + index;
        if place < self.capacity {
            place
        } else {
            place - self.capacity
        }
    }

    // One element more, at `start`.
    pub(crate) fn pushed(self) -> Position
        requires { self.len < self.capacity }
        ensures capacity { result.capacity ≡ self.capacity }
        ensures start { result.start ≡ (self.start + 1) % self.capacity }
        ensures len { result.len ≡ self.len + 1 }
    {
        let place = self.start + 1;
        let start = if place < self.capacity { place } else { 0 };
        Position {
            capacity: self.capacity,
            start,
            len: self.len + 1,
        }
    }

    // The oldest element is gone, if there was one.
    pub(crate) fn popped(self) -> Position
        ensures capacity { result.capacity ≡ self.capacity }
        ensures start { result.start ≡ self.start }
        ensures len { result.len ≡ self.len - 1 }
    {
        Position {
            capacity: self.capacity,
            start: self.start,
            len: self.len.saturating_sub(1),
        }
    }

    // No element is left.
    pub(crate) fn cleared(self) -> Position
        ensures capacity { result.capacity ≡ self.capacity }
        ensures start { result.start ≡ self.start }
        ensures len { result.len ≡ 0 }
    {
        Position {
            capacity: self.capacity,
            start: self.start,
            len: 0,
        }
    }
}
