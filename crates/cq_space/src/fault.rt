//! Counting faults.
ghost use Rattle.std.specs.Prelude.{◌≡◌, ◌+◌, ◌-◌, ◌≤◌, ◌^◌, min};

/// Raises a count by one. At its last value it stays.
pub(crate) fn raise(count: &mut u64)
    ensures raised { count.new ≡ min (count.old + 1) (2 ^ 64 - 1) }
    ensures later { count.old ≤ count.new }
{
    *count = count.saturating_add(1);
}
