//! The order in which cells are urgent.
//!
//! Every list of the switch is kept in this order or searched by it, and two runs agree where they
//! agree on it. So it is shown once, here, that it is an order.
ghost use Rattle.std.specs.Prelude.{◌≡◌};
ghost use Rattle.std.proofs.Common.{rules};
ghost use Rattle.std.specs.Cmp.{partial_order_from_own_ties, partial_order_from_total};
ghost use Rattle.std.specs.Cmp.Rules.{comparing};
ghost use Rattle.std.specs.Ordering.{as_partial_cmp};
ghost use Rattle.cq_base.specs.Key.{KeyLaws, is_before, key_cmp, keys_total};

use crate::{Port, Slot};
use std::cmp::Ordering;

/// How urgent a cell is: by its level, then by its rank, then by the slot of its arrival, then by its
/// input. The lesser key is the more urgent.
///
/// One cell at most arrives at an input in a slot, so the keys of different cells differ. The widest
/// number stands first, so that a key takes 32 bytes and has no gap between its fields; it is not the
/// first that is compared.
#[derive(Clone, Copy, Debug, PartialEq, Eq)]
pub struct Key {
    /// The rank that the cell's output gave it.
    pub rank: u128,
    /// The slot in which it arrived.
    pub slot: Slot,
    /// The input that it came to.
    pub input: Port,
    /// The level of its class.
    pub level: u8,
}

impl Key {
    /// Whether this key is the more urgent.
    #[tactic(auto, unfolding(crate::specs::Key::is_before))]
    pub fn precedes(self, other: Key) -> bool
        ensures { result ≡ is_before self other }
    {
        self < other
    }
}

impl Ord for Key {
    ghost cmp = { key_cmp };

    ghost total = { keys_total };

    ghost matches_partial_cmp = { Prim.search (comparing, rules) };

    ghost matches_eq = { Prim.search (comparing, rules) };

    fn cmp(&self, other: &Key) -> Ordering {
        self.level
            .cmp(&other.level)
            .then_with(|| self.rank.cmp(&other.rank))
            .then_with(|| self.slot.cmp(&other.slot))
            .then_with(|| self.input.cmp(&other.input))
    }
}

impl PartialOrd for Key {
    ghost partial_cmp = { as_partial_cmp key_cmp };

    ghost laws = { partial_order_from_own_ties (partial_order_from_total keys_total) (Prim.search (comparing, rules)) };

    fn partial_cmp(&self, other: &Key) -> Option<Ordering> {
        Some(self.cmp(other))
    }
}

/// Keys are compared by level, then rank, then slot, then input, and this is a strict total order. It
/// does nothing: its contract is the claim.
#[tactic(auto, using(crate::proofs::Keys::key_laws))]
pub fn keys_are_ordered()
    ensures compared { (a b : Key) → ⟦<Key as Ord>⟧.cmp a b ≡ key_cmp a b }
    ensures laws { KeyLaws }
{}
