// How many places a container has.
ghost use Rattle.std.specs.Prelude.{◌≡◌, min};

// The largest capacity.
pub const MAX_CAPACITY: u32 = 65_535;

// The least of what is asked for, 65,535 and a count of cells.
pub fn fitting(asked: u32, count: usize) -> u32
    ensures { result ≡ min (min asked 65535) count }
{
    let count = u32::try_from(count).unwrap_or(u32::MAX);
    asked.min(MAX_CAPACITY).min(count)
}
