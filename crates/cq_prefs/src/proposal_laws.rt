//! What proposals come to, in whatever order they are made. Each law is the contract of a function that does
//! nothing.
ghost use Rattle.std.specs.Prelude.{◌≡◌, ℕ, ◌+◌, ◌*◌, ◌≤◌, List, length, Some};
ghost use Rattle.cq_prefs.specs.Orders.{Orders, AreOffers, ports, place_of, position_of};
ghost use Rattle.cq_prefs.specs.Pairing.{Partners, partner_of, IsStable, IsInputBest, proposals};
ghost use Rattle.cq_prefs.specs.Proposals.{state_after, AreEvents, IsQuiescent, matching_of, next_place, position_held};

/// No input passes its partner in any stable matching: its next place is never past the place after that
/// partner's, and the partner never holds an input that it prefers.
#[tactic(auto, using(crate::proofs::Quiet::quiet_steps))]
pub fn no_input_passes()
    ensures places { (o : Orders) → AreOffers o → (events : List ℕ) → AreEvents o events →
        (m : Partners) → IsStable o m → (i j : ℕ) → partner_of m i ≡ Some j →
        next_place (state_after o events) i ≤ place_of o i j + 1 }
    ensures positions { (o : Orders) → AreOffers o → (events : List ℕ) → AreEvents o events →
        (m : Partners) → IsStable o m → (i j : ℕ) → partner_of m i ≡ Some j →
        position_of o j i ≤ position_held (state_after o events) j }
{}

/// Where nobody is free any more, the pairs of those who are held are the stable matching that is best for the
/// inputs, and there were as many proposals as it has.
#[tactic(auto, using(crate::proofs::Quiet::quiet_steps))]
pub fn quiescent_is_input_best()
    ensures best { (o : Orders) → AreOffers o → (events : List ℕ) → AreEvents o events →
        IsQuiescent o (state_after o events) → IsInputBest o (matching_of o (state_after o events)) }
    ensures proposals { (o : Orders) → AreOffers o → (events : List ℕ) → AreEvents o events →
        IsQuiescent o (state_after o events) → length events ≡ proposals o (matching_of o (state_after o events)) }
{}

/// There are never more proposals than the number of ports squared.
#[tactic(auto, using(crate::proofs::Quiet::events_at_most))]
pub fn proposals_are_few()
    ensures { (o : Orders) → AreOffers o → (events : List ℕ) → AreEvents o events → length events ≤ ports o * ports o }
{}
