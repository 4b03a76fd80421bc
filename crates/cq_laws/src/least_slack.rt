//! The least slack of a run, read off the cells as they arrive. Each law is the contract of a function that does
//! nothing.
ghost use Rattle.std.specs.Prelude.{◌≡◌, ◌+◌, ◌==◌, ◌<◌, ℕ, min, List, Option, Some, filter_map, length};
ghost use Rattle.std.specs.List.{AllByRecursion, position_or_len, reduce};
ghost use Rattle.cq_laws.specs.Terms.{Cell, Queued, Figures, place_of_arrival, Machine, AreForPorts, IdealState, IsStable, Fabric, input, cushion_of, empty_fabric, Arrives, came_to, EachRises, EachArrivesOr, Falls, SlotRecord, FabricSlot, FabricRun, Agrees, figures_of, figures_after, no_figures, slacks, either_by, least_slack, slack_on_arrival, HasMoreSlack};

/// From the arrivals of a slot to its end the slack of each cell that still waits rises by one at least, so that
/// to the arrivals of the next slot it does not fall.
pub fn slack_never_falls()
    ensures rises { (ms : List Machine) (slot class_count : ℕ) (cells : List (Option Cell)) (f g : Fabric)
        (ideal : IdealState) (r : SlotRecord) →
        Agrees slot f ideal → AreForPorts (length f.inputs) class_count cells →
        FabricSlot IsStable ms slot cells f r g → EachRises 1 r.arrived g }
    ensures next { (ms : List Machine) (slot class_count : ℕ) (cells : List (Option Cell)) (f g : Fabric)
        (ideal : IdealState) (r : SlotRecord) →
        Agrees slot f ideal → AreForPorts (length f.inputs) class_count cells →
        FabricSlot IsStable ms slot cells f r g →
        (cells' : List (Option Cell)) (came' : List (Option Queued)) (h : Fabric) →
        Arrives ms (slot + 1) cells' came' g h → EachArrivesOr (Falls 0 r.arrived h) came' h }
{}

/// The least slack of a run is the least with which a cell arrived. So it is enough to look at the cells that
/// arrive, and to keep that each cell that waits between two slots has more slack than the least so far.
pub fn least_slack_is_on_arrival()
    ensures run { (ms : List Machine) (ports class_count : ℕ) (ranks : List (List ℕ))
        (traffic : List (List (Option Cell))) (rs : List SlotRecord) (g : Fabric) (i : ℕ) →
        AllByRecursion (AreForPorts ports class_count) traffic →
        FabricRun IsStable ms 0 traffic (empty_fabric ports ranks) rs g → i < ports →
        least_slack (figures_of ports rs) i ≡ reduce min (filter_map (slack_on_arrival i) rs) }
    // one slot
    ensures slot { (ms : List Machine) (slot class_count : ℕ) (cells : List (Option Cell)) (f g : Fabric)
        (ideal : IdealState) (r : SlotRecord) →
        Agrees slot f ideal → AreForPorts (length f.inputs) class_count cells →
        FabricSlot IsStable ms slot cells f r g → (x : Figures) → HasMoreSlack x f → (i : ℕ) →
        either_by min (least_slack x i) (reduce min (slacks r.arrived i))
        ≡ either_by min (least_slack x i) (slack_on_arrival i r) }
    ensures kept { (ms : List Machine) (slot class_count : ℕ) (cells : List (Option Cell)) (f g : Fabric)
        (ideal : IdealState) (r : SlotRecord) →
        Agrees slot f ideal → AreForPorts (length f.inputs) class_count cells →
        FabricSlot IsStable ms slot cells f r g → (x : Figures) → HasMoreSlack x f →
        HasMoreSlack (figures_after x r) g }
    // whatever the cells were that waited before, a slot whose slacks were all looked at leaves more slack to each
    ensures looked { (ms : List Machine) (slot class_count : ℕ) (cells : List (Option Cell)) (f g : Fabric)
        (ideal : IdealState) (r : SlotRecord) →
        Agrees slot f ideal → AreForPorts (length f.inputs) class_count cells →
        FabricSlot IsStable ms slot cells f r g → (x : Figures) →
        length x.inputs ≡ length f.inputs → HasMoreSlack (figures_after x r) g }
    ensures begin { (ports : ℕ) (ranks : List (List ℕ)) → HasMoreSlack (no_figures ports) (empty_fabric ports ranks) }
    // the input thread with which a cell arrives is the place at which it goes in
    ensures place { (ms : List Machine) (slot class_count : ℕ) (cells : List (Option Cell)) (f g : Fabric)
        (ideal : IdealState) (r : SlotRecord) →
        Agrees slot f ideal → AreForPorts (length f.inputs) class_count cells →
        FabricSlot IsStable ms slot cells f r g → (i : ℕ) (c : Queued) → came_to r.came i ≡ Some c →
        position_or_len (λ q. q.key.slot == r.slot) (input r.arrived i)
        ≡ place_of_arrival (cushion_of f c) c (input f i) }
{}
