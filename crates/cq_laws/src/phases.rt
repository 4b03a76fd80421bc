//! What each phase of a slot keeps. The law is the contract of a function that does nothing.
ghost use Rattle.std.specs.Prelude.{◌≡◌, ℕ, Bool, List, Option, length};
ghost use Rattle.cq_laws.specs.Terms.{Cell, Queued, Machine, admission, IdealState, AreForPorts, orders_of, Partners, IsStable, Agrees, Fabric, IsWholeFabric, ListsKeepOrder, SlotRecord, FabricSlot, EachIsWhole, Arrives, Transfers, Departs, NoKeyTwice};

/// Each phase leaves a fabric a fabric: each cell is for one of the outputs, the cells of a buffer are for its
/// output and stand in the order of their keys, and each output has one rank state. So it is at each moment of a
/// slot. And each input keeps one mark.
pub fn phases_keep_the_fabric()
    ensures arrivals { (ms : List Machine) (slot class_count : ℕ) (cells : List (Option Cell))
        (came : List (Option Queued)) (old new : Fabric) →
        IsWholeFabric old → AreForPorts (length old.inputs) class_count cells → Arrives ms slot cells came old new →
        IsWholeFabric new }
    ensures transfers { (m : Partners) (old new : Fabric) → IsWholeFabric old → ListsKeepOrder old → NoKeyTwice old →
        IsStable (orders_of old.inputs) m → Transfers m old new → IsWholeFabric new }
    ensures departures { (ms : List Machine) (gone : List (Option Queued)) (old new : Fabric) →
        IsWholeFabric old → Departs ms gone old new → IsWholeFabric new }
    // so each state of a slot is one, from any states that agree
    ensures slot { (ms : List Machine) (slot class_count : ℕ) (cells : List (Option Cell)) (f g : Fabric)
        (ideal : IdealState) (r : SlotRecord) →
        Agrees slot f ideal → length f.ranks ≡ length f.inputs → AreForPorts (length f.inputs) class_count cells →
        FabricSlot IsStable ms slot cells f r g → EachIsWhole f r g }
    ensures marks { (limits : List (Option ℕ)) (held : List ℕ) (marks : List Bool) (cells : List (Option Cell)) →
        length (admission limits held marks cells).marks ≡ length marks }
{}
