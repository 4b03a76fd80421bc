//! A fabric that stands still between two slots.
ghost use Rattle.std.specs.Prelude.{◌≡◌, ℕ};
ghost use Rattle.cq_laws.specs.Terms.{IdealState, Agrees, Fabric, IsSoundFabric, ideal_of};

use crate::Refused;
use cq_base::{Figures, Queued, Sequence, Slot};

/// All that the slots to come need of those that are done: the fabric with its marks, and what was counted.
#[derive(Drop)]
pub struct Frozen {
    /// The slot that comes next.
    pub next: Slot,
    /// What was seen of the slots so far.
    pub figures: Figures,
    /// What was refused so far: one for each output that has a limit, in order.
    pub refused: Sequence<Refused>,
    /// For each input whether its mark is up: the packet that is arriving at it, or arrived last, is refused.
    pub marks: Sequence<bool>,
    /// For each output the numbers of its rank machine.
    pub ranks: Sequence<Sequence<u128>>,
    /// For each input the cells of its list, from the first on.
    pub lists: Sequence<Sequence<Queued>>,
    /// For each output the cells of its buffer, the most urgent first.
    pub buffers: Sequence<Sequence<Queued>>,
}

/// A fabric whose lists and buffers stand in order, whose keys differ, and whose waiting cells have slack 1 at least,
/// is in step with an ideal switch: with the one that has all its cells, in the order of their keys, and with no other.
/// This function does nothing: its contract is the claim.
pub fn sound_fabrics_are_in_step()
    ensures agrees { (slot : ℕ) (f : Fabric) → IsSoundFabric slot f → Agrees slot f (ideal_of f) }
    ensures sound { (slot : ℕ) (f : Fabric) (ideal : IdealState) → Agrees slot f ideal → IsSoundFabric slot f }
    ensures only { (slot : ℕ) (f : Fabric) (ideal : IdealState) → Agrees slot f ideal → ideal ≡ ideal_of f }
{}
