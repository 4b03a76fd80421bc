//! What the lists and buffers of a fabric are asked for. Each law is the contract of a function that does nothing.
ghost use Rattle.std.specs.Prelude.{◌≡◌, ℕ, List, Ok, Option, Some, length};
ghost use Rattle.cq_laws.specs.Terms.{Cell, Queued, Machine, IdealState, AreForPorts, ranking, orders_of, IsStable, Partners, Agrees, FirstsCanCross, FitsList, Fabric, Arrives, Departs, Transfers, came_to};

/// In a slot from a state that agrees with an ideal one each cell that comes fits the list of its input, and the
/// cells can cross before each of the two matchings, whichever stable one the first is.
pub fn cells_find_their_places()
    ensures comes { (ms : List Machine) (slot class_count : ℕ) (cells : List (Option Cell))
        (came : List (Option Queued)) (f : Fabric) (ideal : IdealState) →
        Agrees slot f ideal → AreForPorts (length f.inputs) class_count cells → (ranks : List (List ℕ)) →
        ranking ms slot 0 cells f.ranks ≡ Ok (record { came = came; ranks = ranks }) → (i : ℕ) (c : Queued) →
        came_to came i ≡ Some c → FitsList f i c }
    ensures first { (ms : List Machine) (slot class_count : ℕ) (cells : List (Option Cell))
        (came : List (Option Queued)) (f : Fabric) (ideal : IdealState) →
        Agrees slot f ideal → AreForPorts (length f.inputs) class_count cells → (arrived : Fabric) →
        Arrives ms slot cells came f arrived → FirstsCanCross arrived }
    ensures second { (ms : List Machine) (slot class_count : ℕ) (cells : List (Option Cell))
        (came : List (Option Queued)) (f : Fabric) (ideal : IdealState) →
        Agrees slot f ideal → AreForPorts (length f.inputs) class_count cells → (arrived : Fabric) →
        Arrives ms slot cells came f arrived → (m : Partners) (filled sent : Fabric) (gone : List (Option Queued)) →
        IsStable (orders_of arrived.inputs) m → Transfers m arrived filled → Departs ms gone filled sent →
        FirstsCanCross sent }
{}
