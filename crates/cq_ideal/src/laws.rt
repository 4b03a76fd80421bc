//! Laws of the ideal switch.
ghost use Rattle.std.specs.Prelude.{◌≡◌, ◌≤◌, ℕ, List, IfOk};
ghost use Rattle.cq_ideal.specs.Terms.{no_arrivals, Arrival, arriving, enough, traffic_of, Machine, IsEmptyIdeal, empty_ideal, ideal_run};

/// A run of the ideal switch has enough slots: where no rank is a tag fault, all lists are empty at its
/// end, and no cell arrives in a later slot. So nothing is cut off. This function does nothing: its
/// contract is the claim.
#[tactic(auto, using(crate::proofs::EnoughSlots::empty_at_end, crate::proofs::EnoughSlots::none_after_end))]
pub fn ideal_run_is_whole()
    ensures empty { (ms : List Machine) (ports : ℕ) (ranks : List (List ℕ)) (came : List Arrival) →
        IfOk (ideal_run ms 0 (traffic_of came) (empty_ideal ports ranks)) (λ ran. IsEmptyIdeal ran.after) }
    ensures over { (came : List Arrival) (slot : ℕ) → enough came ≤ slot → arriving came slot ≡ no_arrivals }
{}
