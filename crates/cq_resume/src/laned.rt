//! Items that stand in lanes, each lane in an order of its own.
ghost use Rattle.std.specs.Prelude.{◌≡◌, ◌↔◌, ◌<◌, ℕ, AllPairs, IfSome, IsTrue, None, length, replicate};
ghost use Rattle.std.specs.List.{AllByRecursion};

/// An item that stands in a lane.
pub trait Laned: Copy {
    /// The number of its lane.
    ghost lane_of: { Self → ℕ };

    /// Whether the one stands before the other.
    ghost stands_before: { Self → Self → Type 0 };

    /// That goes on from one to the next.
    ghost goes_on: { (a b c : Self) → stands_before a b → stands_before b c → stands_before a c };

    /// The number of its lane.
    fn lane(&self) -> usize
        ensures { result ≡ lane_of self.now };

    /// Whether it stands before another.
    fn is_ahead(&self, other: &Self) -> bool
        ensures { IsTrue result ↔ stands_before self.now other.now };
}

// Whether an item may come behind the last one of its lane, if there is one.
fn may_follow<T: Laned>(last: Option<T>, item: &T) -> bool
    ensures { IsTrue result ↔ IfSome last (λ before. T.stands_before before item.now) }
{
    match last {
        Some(before) => before.is_ahead(item),
        None => true,
    }
}

/// Whether of any two items of one lane the first stands before the other. Each is compared with the last one of its
/// lane that came before it, for which there is a place; at first there is none.
#[tactic(auto, using(crate::proofs::Lanes::lanes_first, crate::proofs::Lanes::within))]
pub fn lanes_in_order<T: Laned>(items: &[T], last: &mut [Option<T>]) -> bool
    requires none { last.old ≡ replicate (length last.old) None }
    requires lanes { AllByRecursion (λ x. T.lane_of x < length last.old) items.now }
    ensures { IsTrue result ↔ AllPairs (λ a b. T.lane_of a ≡ T.lane_of b → T.stands_before a b) items.now }
{
    'items: for item in items {
        let lane = item.lane();
        if !may_follow(last[lane], item) {
            return false;
        }
        last[lane] = Some(*item);
    }
    true
}
