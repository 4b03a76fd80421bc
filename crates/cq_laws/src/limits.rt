//! The fabric where outputs have limits: why it refuses what the ideal switch refuses, and why the laws of runs
//! without limits hold of its runs. Each law is the contract of a function that does nothing.
ghost use Rattle.std.specs.Prelude.{◌≡◌, ℕ, Bool, List, Option, Err, length, replicate};
ghost use Rattle.std.specs.List.{AllByRecursion};
ghost use Rattle.cq_laws.specs.Terms.{Cell, TagFault, no_arrivals, Arrival, Machine, Marked, NoLimits, admitted_in, marked, marks_down, unmarked, first_slots, IdealState, slots_of_limited_run, whole_limited_run, admitted_traffic, empty_limited, ideal_admission, ideal_held, AreForPorts, AreOfPackets, AreWholePackets, cells_at, IsInputBest, IsStable, Agrees, Fabric, empty_fabric, FabricRun, FabricStops, SlotRecord, fabric_held, LimitedAgrees, LimitedEndsAlike, IsRunOfRecorded, LimitedFabricRun, LimitedFabricSlot, LimitedFabricStops, LimitedRecord, LimitedWholeRun, admissions_in, empty_limited_fabric, fabric_admission, passed, slots_in, quiet_limited_slot, quiet_limited_slots, idled, idled_for};

/// In states that agree each output holds equally many cells: in the ideal switch those of its list, in the
/// fabric those for it at all inputs and in its buffer. So where the marks are equal both admit and refuse the
/// same arrivals.
pub fn outputs_hold_as_many()
    ensures held { (slot : ℕ) (f : Fabric) (ideal : IdealState) →
        Agrees slot f ideal → fabric_held f ≡ ideal_held ideal }
    ensures admission { (limits : List (Option ℕ)) (slot : ℕ) (cells : List (Option Cell)) (f : Marked Fabric)
        (ideal : Marked IdealState) →
        LimitedAgrees slot f ideal → fabric_admission limits cells f ≡ ideal_admission limits cells ideal }
{}

/// A run with limits is a run without, of the arrivals that the ideal switch admits. So every law on the runs
/// of the fabric holds of it. And what is admitted at an input are whole packets.
#[tactic(auto, using(crate::proofs::LimitedWhole::admitted_steps))]
pub fn limited_runs_are_of_admitted()
    // slot by slot, of what its own records say was admitted
    ensures recorded { IsRunOfRecorded IsStable }
    ensures recorded_input_best { IsRunOfRecorded IsInputBest }
    ensures run { (limits : List (Option ℕ)) (ms : List Machine) (slot class_count : ℕ)
        (traffic : List (List (Option Cell))) (f g : Marked Fabric) (ideal : Marked IdealState)
        (rs : List LimitedRecord) →
        LimitedAgrees slot f ideal → AllByRecursion (AreForPorts (length f.state.inputs) class_count) traffic →
        LimitedFabricRun IsStable limits ms slot traffic f rs g →
        FabricRun IsStable ms slot (admitted_traffic limits ms slot traffic ideal) f.state (slots_in rs) g.state }
    ensures stop { (limits : List (Option ℕ)) (ms : List Machine) (slot class_count : ℕ)
        (traffic : List (List (Option Cell))) (f : Marked Fabric) (ideal : Marked IdealState)
        (rs : List LimitedRecord) (fault : TagFault) →
        LimitedAgrees slot f ideal → AllByRecursion (AreForPorts (length f.state.inputs) class_count) traffic →
        LimitedFabricStops IsStable limits ms slot traffic f rs fault →
        FabricStops IsStable ms slot (admitted_traffic limits ms slot traffic ideal) f.state (slots_in rs) fault }
    ensures packets { (limits : List (Option ℕ)) (ms : List Machine) (slot : ℕ) (traffic : List (List (Option Cell)))
        (f g : Marked Fabric) (rs : List LimitedRecord) (i : ℕ) →
        LimitedFabricRun IsStable limits ms slot traffic f rs g → AreOfPackets 0 (cells_at i traffic) →
        AreWholePackets (cells_at i traffic) (cells_at i (admitted_in (admissions_in rs))) }
{}

/// Where no output has a limit, the runs are those of a fabric that knows no limits.
#[tactic(auto, using(crate::proofs::NothingRefused::unrefused_steps))]
pub fn runs_without_limits_are_as_before()
    ensures run { (limits : List (Option ℕ)) (ms : List Machine) (slot ports : ℕ)
        (traffic : List (List (Option Cell))) (f : Fabric) (rs : List LimitedRecord) (g : Marked Fabric) →
        NoLimits limits → LimitedFabricRun IsInputBest limits ms slot traffic (unmarked ports f) rs g →
        FabricRun IsInputBest ms slot traffic f (slots_in rs) g.state
        × (rs ≡ passed (marks_down ports) traffic (slots_in rs)) × (g ≡ unmarked ports g.state) }
    ensures back { (limits : List (Option ℕ)) (ms : List Machine) (slot ports : ℕ)
        (traffic : List (List (Option Cell))) (f g : Fabric) (rs : List SlotRecord) →
        NoLimits limits → FabricRun IsInputBest ms slot traffic f rs g →
        LimitedFabricRun IsInputBest limits ms slot traffic (unmarked ports f) (passed (marks_down ports) traffic rs)
        (unmarked ports g) }
    ensures stop { (limits : List (Option ℕ)) (ms : List Machine) (slot ports : ℕ)
        (traffic : List (List (Option Cell))) (f : Fabric) (rs : List LimitedRecord) (fault : TagFault) →
        NoLimits limits → LimitedFabricStops IsInputBest limits ms slot traffic (unmarked ports f) rs fault →
        FabricStops IsInputBest ms slot traffic f (slots_in rs) fault }
{}

/// From a state without cells, slots in which none arrives refuse nothing and move no mark: a mark can be up
/// while no cell waits.
pub fn quiet_slots_leave_marks()
    ensures slot { (limits : List (Option ℕ)) (ms : List Machine) (slot ports : ℕ) (ranks : List (List ℕ))
        (marks : List Bool) →
        LimitedFabricSlot IsInputBest limits ms slot no_arrivals (marked marks (empty_fabric ports ranks))
        (quiet_limited_slot ms slot ports ranks marks)
        (marked marks (empty_fabric ports (idled ms ports ranks))) }
    ensures run { (limits : List (Option ℕ)) (ms : List Machine) (count slot ports : ℕ) (ranks : List (List ℕ))
        (marks : List Bool) →
        LimitedFabricRun IsInputBest limits ms slot (replicate count no_arrivals)
        (marked marks (empty_fabric ports ranks)) (quiet_limited_slots ms count slot ports ranks marks)
        (marked marks (empty_fabric ports (idled_for ms count ports ranks))) }
{}

/// Whatever the limits, the fabric and the ideal switch end after the same slot, whichever stable matchings are taken,
/// and have admitted, refused and sent the same. And the cells that arrive leave one whole run with input-best
/// matchings, if there is one.
pub fn limited_runs_end_together()
    ensures end { (limits : List (Option ℕ)) (ms : List Machine) (ports class_count : ℕ) (ranks : List (List ℕ))
        (came : List Arrival) (rs : List LimitedRecord) (g : Marked Fabric) →
        AllByRecursion (AreForPorts ports class_count) (first_slots came (length rs)) →
        LimitedWholeRun IsStable limits ms came (empty_limited_fabric ports ranks) rs g →
        LimitedEndsAlike limits ms came (empty_limited ports ranks) rs g }
    ensures slots { (limits : List (Option ℕ)) (ms : List Machine) (ports class_count : ℕ) (ranks : List (List ℕ))
        (came : List Arrival) (rs : List LimitedRecord) (g : Marked Fabric) →
        AllByRecursion (AreForPorts ports class_count) (first_slots came (length rs)) →
        LimitedWholeRun IsStable limits ms came (empty_limited_fabric ports ranks) rs g →
        slots_of_limited_run limits ms came (empty_limited ports ranks) ≡ length rs }
    // or they stop at the same tag fault
    ensures stop { (limits : List (Option ℕ)) (ms : List Machine) (ports class_count n : ℕ) (ranks : List (List ℕ))
        (came : List Arrival) (rs : List LimitedRecord) (fault : TagFault) →
        AllByRecursion (AreForPorts ports class_count) (first_slots came n) →
        LimitedFabricStops IsStable limits ms 0 (first_slots came n) (empty_limited_fabric ports ranks) rs fault →
        whole_limited_run limits ms came (empty_limited ports ranks) ≡ Err fault }
    ensures one { (limits : List (Option ℕ)) (ms : List Machine) (came : List Arrival) (start g h : Marked Fabric)
        (rs ss : List LimitedRecord) →
        LimitedWholeRun IsInputBest limits ms came start rs g →
        LimitedWholeRun IsInputBest limits ms came start ss h → (rs ≡ ss) × (g ≡ h) }
{}
