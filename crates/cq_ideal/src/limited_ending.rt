//! Where the run of the ideal switch ends where outputs have limits. Each law is the contract of a function that does
//! nothing.
ghost use Rattle.std.specs.Prelude.{◌≡◌, ◌≤◌, ℕ, List, Option, Err, Ok, max};
ghost use Rattle.std.specs.List.{AllByRecursion};
ghost use Rattle.cq_ideal.specs.Terms.{Arrival, end_of, enough, traffic_of, TagFault, Machine, Marked, NoLimits, first_slots, slots_of, slots_of_run, whole_ideal_run, IsForSwitch, departures_of, empty_ideal, IdealState, LimitedIdealEnds, departures_limited, slots_of_limited_run, whole_limited_run, LimitedRan, empty_limited, limited_run, unlimited};

/// Where outputs have limits a run over all cells that arrive has one end too, if no rank is a tag fault. It ends
/// with the last arrival, or with the last departure where that is later.
pub fn limited_run_ends()
    ensures end { (limits : List (Option ℕ)) (ms : List Machine) (ports : ℕ) (ranks : List (List ℕ))
        (came : List Arrival) (ran : LimitedRan) →
        whole_limited_run limits ms came (empty_limited ports ranks) ≡ Ok ran →
        LimitedIdealEnds limits ms came (empty_limited ports ranks)
        (slots_of_limited_run limits ms came (empty_limited ports ranks)) ran.after }
    ensures only { (limits : List (Option ℕ)) (ms : List Machine) (ports n : ℕ) (ranks : List (List ℕ))
        (came : List Arrival) (end : Marked IdealState) →
        LimitedIdealEnds limits ms came (empty_limited ports ranks) n end →
        slots_of_limited_run limits ms came (empty_limited ports ranks) ≡ n }
    ensures slots { (limits : List (Option ℕ)) (ms : List Machine) (ports : ℕ) (ranks : List (List ℕ))
        (came : List Arrival) (ran : LimitedRan) → AllByRecursion (IsForSwitch ms ports) came →
        whole_limited_run limits ms came (empty_limited ports ranks) ≡ Ok ran →
        slots_of_limited_run limits ms came (empty_limited ports ranks)
        ≡ max (end_of came) (slots_of (departures_of 0 ran.gone)) }
    // and where no output has a limit these are the slots, and the run, of before there were limits
    ensures slots_as_before { (limits : List (Option ℕ)) (ms : List Machine) (ports : ℕ) (ranks : List (List ℕ))
        (came : List Arrival) → NoLimits limits →
        slots_of_limited_run limits ms came (empty_limited ports ranks)
        ≡ slots_of_run ms came (empty_ideal ports ranks) }
    ensures run_as_before { (limits : List (Option ℕ)) (ms : List Machine) (ports : ℕ) (ranks : List (List ℕ))
        (came : List Arrival) → NoLimits limits →
        unlimited (whole_limited_run limits ms came (empty_limited ports ranks))
        ≡ whole_ideal_run ms came (empty_ideal ports ranks) }
{}

/// A run over as many slots as are enough is the whole run, and then slots that send nothing. A tag fault that is met
/// in any number of slots is the whole run's.
#[tactic(auto, using(crate::proofs::LimitedEnds::more_limited_slots_steps))]
pub fn more_limited_slots_send_nothing()
    ensures enough { (limits : List (Option ℕ)) (ms : List Machine) (ports : ℕ) (ranks : List (List ℕ))
        (came : List Arrival) →
        slots_of_limited_run limits ms came (empty_limited ports ranks) ≤ enough came }
    ensures fault { (limits : List (Option ℕ)) (ms : List Machine) (ports n : ℕ) (ranks : List (List ℕ))
        (came : List Arrival) (fault : TagFault) →
        limited_run limits ms 0 (first_slots came n) (empty_limited ports ranks) ≡ Err fault →
        whole_limited_run limits ms came (empty_limited ports ranks) ≡ Err fault }
    ensures same { (limits : List (Option ℕ)) (ms : List Machine) (ports : ℕ) (ranks : List (List ℕ))
        (came : List Arrival) →
        departures_limited (limited_run limits ms 0 (traffic_of came) (empty_limited ports ranks))
        ≡ departures_limited (whole_limited_run limits ms came (empty_limited ports ranks)) }
{}
