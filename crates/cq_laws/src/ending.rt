//! Where runs of the fabric end. Each law is the contract of a function that does nothing.
ghost use Rattle.std.specs.Prelude.{◌≡◌, ℕ, List, Err, length};
ghost use Rattle.std.specs.List.{AllByRecursion};
ghost use Rattle.cq_laws.specs.Terms.{Arrival, traffic_of, TagFault, Machine, first_slots, whole_ideal_run, IsForSwitch, empty_ideal, AreForPorts, IsInputBest, IsStable, EndsAlike, Fabric, empty_fabric, BeginsWhole, FabricRun, FabricStops, WholeRun, SlotRecord, figures_of};

/// The fabric and the ideal switch end after the same slot, whichever stable matchings are taken, or stop at
/// the same tag fault.
pub fn runs_end_together()
    ensures end { (ms : List Machine) (ports class_count : ℕ) (ranks : List (List ℕ)) (came : List Arrival)
        (rs : List SlotRecord) (g : Fabric) →
        AllByRecursion (AreForPorts ports class_count) (first_slots came (length rs)) →
        WholeRun IsStable ms came (empty_fabric ports ranks) rs g → EndsAlike ms came (empty_ideal ports ranks) rs g }
    ensures stop { (ms : List Machine) (ports class_count n : ℕ) (ranks : List (List ℕ)) (came : List Arrival)
        (rs : List SlotRecord) (fault : TagFault) →
        AllByRecursion (AreForPorts ports class_count) (first_slots came n) →
        FabricStops IsStable ms 0 (first_slots came n) (empty_fabric ports ranks) rs fault →
        whole_ideal_run ms came (empty_ideal ports ranks) ≡ Err fault }
    // in the last slot a cell departs, so there are as many slots as the figures say
    ensures slots { (ms : List Machine) (ports class_count : ℕ) (ranks : List (List ℕ)) (came : List Arrival)
        (rs : List SlotRecord) (g : Fabric) →
        AllByRecursion (AreForPorts ports class_count) (first_slots came (length rs)) →
        AllByRecursion (IsForSwitch ms ports) came → WholeRun IsStable ms came (empty_fabric ports ranks) rs g →
        (figures_of ports rs).slots ≡ length rs }
{}

/// The cells that arrive leave one whole run with input-best matchings, if there is one.
pub fn one_whole_run()
    ensures { (ms : List Machine) (came : List Arrival) (start g h : Fabric) (rs ss : List SlotRecord) →
        WholeRun IsInputBest ms came start rs g → WholeRun IsInputBest ms came start ss h → (rs ≡ ss) × (g ≡ h) }
{}

/// A run over as many slots as are enough begins with the whole run, and then nothing departs, nothing crosses
/// and no figure changes.
#[tactic(auto, using(crate::proofs::EndsTogether::begins_whole))]
pub fn more_slots_add_nothing()
    ensures { (ms : List Machine) (ports class_count : ℕ) (ranks : List (List ℕ)) (came : List Arrival)
        (rs : List SlotRecord) (g : Fabric) →
        AllByRecursion (AreForPorts ports class_count) (traffic_of came) →
        FabricRun IsInputBest ms 0 (traffic_of came) (empty_fabric ports ranks) rs g →
        BeginsWhole IsInputBest ms came (empty_fabric ports ranks) rs }
{}
