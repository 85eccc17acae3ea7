// How much a vector can hold, and how much it holds.
ghost use Rattle.std.specs.Prelude.{◌≡◌, ◌-◌, ◌≤◌};

// An extent that breaks the facts below cannot be made. Field by field below, as in `Position`.
#[derive(Clone, Copy)]
pub(crate) struct Extent {
    pub capacity: u32,
    pub len: u32,
    ghost small: { capacity ≤ 65535 },
    ghost within: { len ≤ capacity },
}

impl Extent {
    // The same capacity, and another length.
    pub(crate) fn resized(self, len: u32) -> Extent
        requires { len ≤ self.capacity }
        ensures capacity { result.capacity ≡ self.capacity }
        ensures len { result.len ≡ len }
    {
        Extent {
            capacity: self.capacity,
            len,
        }
    }
}
