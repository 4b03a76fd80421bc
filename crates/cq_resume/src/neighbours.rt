//! A test of each item and the next one.
ghost use Rattle.std.specs.Fn.{FnReturnsAtPair};
ghost use Rattle.cq_resume.specs.Terms.{IsOfNeighbours};

/// Whether a test holds of each item and the next one. It is asked of each two once, in order, up to the first two of
/// which it does not hold.
pub fn neighbours_hold<T, F: Fn(&T, &T) -> bool>(items: &[T], holds: F) -> bool
    requires { F.IsAlwaysCallable holds }
    ensures { IsOfNeighbours (FnReturnsAtPair F.Fn holds) items.now result }
{
    'places: for at in 1..items.len() {
        if !holds(&items[at - 1], &items[at]) {
            return false;
        }
    }
    true
}
