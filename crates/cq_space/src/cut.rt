//! Where a fake in memory is set to fail.
ghost use Rattle.std.specs.Prelude.{◌<◌, ◌≤◌, IfNone, IfSome};
ghost use Rattle.cq_space.specs.Cut.{IsReached, StaysBefore};

/// How many of `wanted` bytes move before the cut, where `moved` have: none where it is reached.
pub(crate) fn before_cut(cut: Option<u64>, moved: usize, wanted: usize) -> Option<usize>
    ensures reached { IfNone result (IsReached cut moved) }
    ensures before { IfSome result (StaysBefore cut moved) }
    ensures bound { IfSome result (λ n. n ≤ wanted) }
    ensures progress { 0 < wanted → IfSome result (λ n. 0 < n) }
{
    match cut {
        Some(after) => {
            let left = after.saturating_sub(moved as u64);
            if left == 0 {
                return None;
            }
            Some(left.min(wanted as u64) as usize)
        }
        None => Some(wanted),
    }
}
