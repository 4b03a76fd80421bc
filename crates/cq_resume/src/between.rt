//! The items of one number, of items that stand by it.
ghost use Rattle.std.specs.Prelude.{◌≡◌, ◌==◌, ℕ, filter, nat_le, nat_lt};
ghost use Rattle.std.specs.Fn.{ComputesKey};
ghost use Rattle.std.specs.List.Sorted.{IsNonDecreasingBy};

/// The items that are no more than a number and no less, of items that stand by it. Halving finds where they begin and
/// end.
pub fn between<T, F: FnMut(&T) -> bool, G: FnMut(&T) -> bool>(
    items: &[T],
    is_no_more: F,
    is_less: G,
) -> &[T]
    requires no_more { F.IsAlwaysCallable is_no_more }
    requires less { G.IsAlwaysCallable is_less }
    ensures { (key : T → ℕ) (n : ℕ) → ComputesKey F.FnMut (λ x. nat_le (key x) n) is_no_more →
        ComputesKey G.FnMut (λ x. nat_lt (key x) n) is_less → IsNonDecreasingBy key items.now →
        result.now ≡ filter (λ x. key x == n) items.now }
{
    let end = items.partition_point(is_no_more);
    let upto = &items[..end];
    let start = upto.partition_point(is_less);
    &upto[start..]
}
