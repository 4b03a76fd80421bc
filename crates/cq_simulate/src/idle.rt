//! The slots in which an output is idle. The law is the contract of a function that does nothing.
ghost use Rattle.std.specs.Prelude.{◌≡◌, ◌≤◌, ℕ, List, Option, All, length};
ghost use Rattle.cq_simulate.specs.Terms.{Cell, Machine, IsInputBest, Fabric, SlotRecord, FabricRun, figures_of, Tables, Captured, AreTables, ports_of, CanBeTakenUp, IsResumed, Kept, Taken, schedule_of, switch_of};

/// Each output sends one cell a slot at most: in a run of the fabric from slot 0 on, and in one that goes on from any
/// state that can be taken up, none has sent more cells than the run has slots. So the slots in which an output was
/// idle are the slots less its cells, as `report_text` asks.
pub fn outputs_send_once_a_slot()
    ensures run { (ms : List Machine) (traffic : List (List (Option Cell))) (f g : Fabric) (rs : List SlotRecord)
        (ports : ℕ) → FabricRun IsInputBest ms 0 traffic f rs g →
        All (λ x. x.cells ≤ (figures_of ports rs).slots) (figures_of ports rs).outputs }
    ensures resumed { (t : Tables) (captures : List (List Captured)) (from : Taken) (kept : Kept) →
        AreTables t → length captures ≡ ports_of t.setup → CanBeTakenUp (switch_of t (schedule_of t captures)) from →
        IsResumed (switch_of t (schedule_of t captures)) from kept →
        All (λ x. x.cells ≤ kept.figures.slots) kept.figures.outputs }
{}
