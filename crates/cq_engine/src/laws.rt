//! How many cells an engine comes to hold. The law is the contract of a function that does nothing.
ghost use Rattle.std.specs.Prelude.{ℕ, ◌+◌, ◌≤◌, List, Option, is_some, if◌then◌else◌, length};
ghost use Rattle.cq_engine.specs.Terms.{Cell, arrival_at, Marked, count_for, Machine, IsInputBest, Fabric, input, SlotRecord, FabricSlot, held_for, LimitedFabricSlot, LimitedRecord};

/// In a slot the list of an input grows by the cell that arrives there at most, and the cells that are held for
/// an output grow by those that arrive for it at most. So rooms for all cells of a run are enough in each slot.
#[tactic(auto, using(crate::proofs::Kept::kept_steps))]
pub fn cells_are_kept()
    ensures lists { (ms : List Machine) (slot : ℕ) (cells : List (Option Cell)) (f g : Fabric) (r : SlotRecord) →
        FabricSlot IsInputBest ms slot cells f r g →
        (i : ℕ) → length (input g i) ≤ length (input f i) + (if is_some (arrival_at cells i) then 1 else 0) }
    ensures outputs { (ms : List Machine) (slot : ℕ) (cells : List (Option Cell)) (f g : Fabric) (r : SlotRecord) →
        FabricSlot IsInputBest ms slot cells f r g →
        (j : ℕ) → held_for j g ≤ held_for j f + count_for j cells }
    // what is refused takes no room
    ensures limited_lists { (limits : List (Option ℕ)) (ms : List Machine) (slot : ℕ) (cells : List (Option Cell))
        (f g : Marked Fabric) (r : LimitedRecord) → LimitedFabricSlot IsInputBest limits ms slot cells f r g →
        (i : ℕ) → length (input g.state i)
        ≤ length (input f.state i) + (if is_some (arrival_at cells i) then 1 else 0) }
    ensures limited_outputs { (limits : List (Option ℕ)) (ms : List Machine) (slot : ℕ) (cells : List (Option Cell))
        (f g : Marked Fabric) (r : LimitedRecord) → LimitedFabricSlot IsInputBest limits ms slot cells f r g →
        (j : ℕ) → held_for j g.state ≤ held_for j f.state + count_for j cells }
{}
