//! Laws of the machines.
ghost use Rattle.std.specs.Prelude.{◌≡◌, ◌<◌, ◌≤◌, ℕ, List, length};
ghost use Rattle.cq_rank.specs.Machine.{Machine, KeepsLaws};
ghost use Rattle.cq_rank.specs.Steps.{Step, AreOfClasses, after};

/// As long as an output is never idle, no rank of a class is below an earlier one of that class, whatever other ranks
/// are given and whatever is sent between the two. It holds of every machine that keeps the laws. This function does
/// nothing: its contract is the claim.
#[tactic(auto, using(crate::proofs::Floors::never_fall))]
pub fn ranks_of_a_class_never_fall()
    ensures { (m : Machine) (class : ℕ) (steps : List Step) (state : List ℕ) →
        KeepsLaws m → length state ≡ m.size → class < m.classes → AreOfClasses m.classes steps →
        m.ranked state class ≤ m.ranked (after m steps (m.given state class)) class }
{}
