//! Why the fabric sends what the ideal switch sends. Each law is the contract of a function that does nothing.
ghost use Rattle.std.specs.Prelude.{◌↔◌, ℕ, List, Option, length};
ghost use Rattle.std.specs.List.{AllByRecursion};
ghost use Rattle.cq_laws.specs.Terms.{Cell, Machine, Marked, empty_limited, AreForPorts, IdealState, IsEmptyIdeal, empty_ideal, IsStable, IsInputBest, Fabric, empty_fabric, IsEmptyFabric, HasSlack, SlotRecord, FabricRun, ActAlikeFromEmptyWithoutLimits, ActAlikeWithoutLimits, Agrees, LimitedFabricRun, LimitedRecord, empty_limited_fabric, ActAlike, ActAlikeFromEmpty, LimitedAgrees};

/// From states that agree, the ideal switch and the fabric with input-best matchings admit, refuse and send the
/// same in a slot and agree again, or have the same tag fault. So over whole runs, from empty states on, they
/// send and refuse the same, or stop at the same fault.
#[tactic(auto, using(crate::proofs::ActingAlike::best_alike))]
pub fn same_departures()
    ensures limited { (limits : List (Option ℕ)) (ms : List Machine) → ActAlike IsInputBest limits ms }
    ensures limited_runs { (limits : List (Option ℕ)) (ms : List Machine) → ActAlikeFromEmpty IsInputBest limits ms }
    // the same of switches that know no limits
    ensures without_limits { (ms : List Machine) → ActAlikeWithoutLimits IsInputBest ms }
    ensures runs_without_limits { (ms : List Machine) → ActAlikeFromEmptyWithoutLimits IsInputBest ms }
{}

/// The same with any stable matchings, input-best or not, and from any states that agree; and after the
/// arrivals of each slot no cell's input thread exceeds its output cushion.
#[tactic(auto, using(crate::proofs::ActingAlike::any_alike))]
pub fn any_stable_matching()
    ensures limited { (limits : List (Option ℕ)) (ms : List Machine) → ActAlike IsStable limits ms }
    ensures limited_slack { (limits : List (Option ℕ)) (ms : List Machine) (slot class_count : ℕ)
        (traffic : List (List (Option Cell))) (f g : Marked Fabric) (ideal : Marked IdealState)
        (rs : List LimitedRecord) →
        LimitedAgrees slot f ideal → AllByRecursion (AreForPorts (length f.state.inputs) class_count) traffic →
        LimitedFabricRun IsStable limits ms slot traffic f rs g →
        AllByRecursion (λ r. HasSlack 0 r.of_slot.arrived) rs }
    ensures limited_begin { (ports : ℕ) (ranks : List (List ℕ)) →
        LimitedAgrees 0 (empty_limited_fabric ports ranks) (empty_limited ports ranks) }
    // the same of switches that know no limits
    ensures without_limits { (ms : List Machine) → ActAlikeWithoutLimits IsStable ms }
    ensures slack { (ms : List Machine) (slot class_count : ℕ) (traffic : List (List (Option Cell))) (f g : Fabric)
        (ideal : IdealState) (rs : List SlotRecord) →
        Agrees slot f ideal → AllByRecursion (AreForPorts (length f.inputs) class_count) traffic →
        FabricRun IsStable ms slot traffic f rs g → AllByRecursion (λ r. HasSlack 0 r.arrived) rs }
    // the states before the first slot agree
    ensures begin { (ports : ℕ) (ranks : List (List ℕ)) →
        Agrees 0 (empty_fabric ports ranks) (empty_ideal ports ranks) }
{}

/// Of two states that agree, each has cells where the other has. So a run of the fabric ends with cells left
/// exactly where that of the ideal switch does.
pub fn empty_together()
    ensures { (slot : ℕ) (f : Fabric) (ideal : IdealState) →
        Agrees slot f ideal → (IsEmptyFabric f) ↔ (IsEmptyIdeal ideal) }
{}
