//! Where the run of the ideal switch ends. Each law is the contract of a function that does nothing.
ghost use Rattle.std.specs.Prelude.{◌≡◌, ◌≤◌, ℕ, List, Err, Ok};
ghost use Rattle.std.specs.List.{AllByRecursion};
ghost use Rattle.cq_ideal.specs.Terms.{Arrival, enough, traffic_of, TagFault, Machine, IdealEnds, first_slots, slots_of, slots_of_run, whole_ideal_run, IsForSwitch, Ran, departures_of, departures_ran, empty_ideal, ideal_run, IdealState};

/// A run over all cells that arrive has one end, if no rank is a tag fault.
pub fn ideal_run_ends()
    ensures end { (ms : List Machine) (ports : ℕ) (ranks : List (List ℕ)) (came : List Arrival) (ran : Ran) →
        whole_ideal_run ms came (empty_ideal ports ranks) ≡ Ok ran →
        IdealEnds ms came (empty_ideal ports ranks) (slots_of_run ms came (empty_ideal ports ranks)) ran.after }
    ensures only { (ms : List Machine) (ports n : ℕ) (ranks : List (List ℕ)) (came : List Arrival) (end : IdealState) →
        IdealEnds ms came (empty_ideal ports ranks) n end → slots_of_run ms came (empty_ideal ports ranks) ≡ n }
{}

/// In the last slot of a run a cell departs. So a run has one slot more than the number of the slot of its last
/// departure, and none where no cell arrives.
#[tactic(auto, using(crate::proofs::LastSlot::last_departs))]
pub fn last_slot_departs()
    ensures { (ms : List Machine) (ports : ℕ) (ranks : List (List ℕ)) (came : List Arrival) (ran : Ran) →
        AllByRecursion (IsForSwitch ms ports) came → whole_ideal_run ms came (empty_ideal ports ranks) ≡ Ok ran →
        slots_of (departures_of 0 ran.gone) ≡ slots_of_run ms came (empty_ideal ports ranks) }
{}

/// A run over as many slots as are enough is the whole run, and then slots that send nothing. A tag fault that
/// is met in any number of slots is the whole run's.
#[tactic(auto, using(crate::proofs::LimitedEnds::more_slots_steps))]
pub fn more_slots_send_nothing()
    ensures enough { (ms : List Machine) (ports : ℕ) (ranks : List (List ℕ)) (came : List Arrival) →
        slots_of_run ms came (empty_ideal ports ranks) ≤ enough came }
    ensures fault { (ms : List Machine) (ports n : ℕ) (ranks : List (List ℕ)) (came : List Arrival) (fault : TagFault) →
        ideal_run ms 0 (first_slots came n) (empty_ideal ports ranks) ≡ Err fault →
        whole_ideal_run ms came (empty_ideal ports ranks) ≡ Err fault }
    ensures same { (ms : List Machine) (ports : ℕ) (ranks : List (List ℕ)) (came : List Arrival) →
        departures_ran (ideal_run ms 0 (traffic_of came) (empty_ideal ports ranks))
        ≡ departures_ran (whole_ideal_run ms came (empty_ideal ports ranks)) }
{}
