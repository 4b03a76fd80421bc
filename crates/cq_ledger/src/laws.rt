//! What the steps of a ledger are, over its words and the views of its seats as plain lists. Each law is the
//! contract of a function that does nothing.
//!
//! A ledger makes no other steps, but for a look at the word of claims after a join, which changes nothing. Each
//! step is atomic, and the rule holds between any two. So the laws hold of every run of any number of threads.
ghost use Rattle.std.specs.Prelude.{◌≡◌, ◌≢◌, ℕ, suc, ◌<◌, ◌≤◌, ◌++◌, List, [], ◌∷◌, Some, None, slice_index, slice_set};
ghost use Rattle.cq_base.specs.Limits.{most_ports};
ghost use Rattle.cq_prefs.specs.Orders.{Orders, AreOffers, ports};
ghost use Rattle.cq_prefs.specs.Proposals.{output_at, start};
ghost use Rattle.cq_ledger.specs.declared.view.View.{View};
ghost use Rattle.cq_ledger.specs.Moments.{IsEvent, IsMoment, ShowsProposals};
ghost use Rattle.cq_ledger.specs.Rule.{IsLedger};
ghost use Rattle.cq_ledger.specs.Shown.{core_state};
ghost use Rattle.cq_ledger.specs.Steps.{blank, claim_refused, claim_taken, first_words, joined, proposed, spent, words_claimed, words_proposed};
ghost use Rattle.cq_ledger.specs.Views.{IsClaimed, IsUnclaimed, Sits};

/// What each kind of step does to the state of the proposal core that words and views show, wherever the rule
/// holds. A proposal is one event of the core: the hand's input is free, the state is the one after its
/// proposal, and the answer is what that proposal comes to. Making the first seat shows the state at the start.
/// A claim, whether it finds the input claimed or not, a split and a join leave the state as it is.
pub fn step_is_event()
    ensures start { (o : Orders) → AreOffers o → ports o ≤ most_ports →
        core_state o (first_words o) (blank o ∷ []) ≡ start o }
    ensures proposal { (o : Orders) (words : List ℕ) (views : List View) (id i p : ℕ) (v : View) →
        IsMoment o words views id v → v.hand ≡ Some (i, p) → IsEvent o words views id i p v }
    ensures claim_taken { (o : Orders) (words : List ℕ) (views : List View) (id i : ℕ) (v : View) →
        IsMoment o words views id v → v.hand ≡ None → i < ports o → IsUnclaimed words i →
        core_state o (words_claimed words i) (slice_set views id (claim_taken v i)) ≡ core_state o words views }
    ensures claim_refused { (o : Orders) (words : List ℕ) (views : List View) (id i : ℕ) (v : View) →
        IsMoment o words views id v → IsClaimed words i →
        core_state o (words_claimed words i) (slice_set views id (claim_refused v i)) ≡ core_state o words views }
    ensures split { (o : Orders) (words : List ℕ) (views : List View) (id : ℕ) (v : View) →
        IsMoment o words views id v →
        core_state o words (slice_set views id v ++ blank o ∷ []) ≡ core_state o words views }
    ensures join { (o : Orders) (words : List ℕ) (views : List View) (id other : ℕ) (v w : View) →
        IsMoment o words views id v → Sits views other w → other ≢ id → v.hand ≡ None → w.hand ≡ None →
        core_state o words (slice_set (slice_set views id (joined v w)) other spent) ≡ core_state o words views }
{}

/// Each kind of step keeps the rule.
#[tactic(auto, using(crate::proofs::Allowed::keep_steps))]
pub fn steps_keep_the_rule()
    ensures start { (o : Orders) → AreOffers o → ports o ≤ most_ports → IsLedger o (first_words o) (blank o ∷ []) }
    ensures proposal { (o : Orders) (words : List ℕ) (views : List View) (id i p : ℕ) (v : View) →
        IsMoment o words views id v → v.hand ≡ Some (i, p) →
        IsLedger o (words_proposed o words i p)
        (slice_set views id (proposed v i p (slice_index words (suc (output_at o i p))))) }
    ensures claim_taken { (o : Orders) (words : List ℕ) (views : List View) (id i : ℕ) (v : View) →
        IsMoment o words views id v → v.hand ≡ None → i < ports o → IsUnclaimed words i →
        IsLedger o (words_claimed words i) (slice_set views id (claim_taken v i)) }
    ensures claim_refused { (o : Orders) (words : List ℕ) (views : List View) (id i : ℕ) (v : View) →
        IsMoment o words views id v → IsClaimed words i →
        IsLedger o (words_claimed words i) (slice_set views id (claim_refused v i)) }
    ensures split { (o : Orders) (words : List ℕ) (views : List View) (id : ℕ) (v : View) →
        IsMoment o words views id v → IsLedger o words (slice_set views id v ++ blank o ∷ []) }
    ensures join { (o : Orders) (words : List ℕ) (views : List View) (id other : ℕ) (v w : View) →
        IsMoment o words views id v → Sits views other w → other ≢ id → v.hand ≡ None → w.hand ≡ None →
        IsLedger o words (slice_set (slice_set views id (joined v w)) other spent) }
{}

/// What the rule comes to. The state that words and views show is one that proposals of free inputs reach, and
/// the seats made those proposals. Each output has a word that it can have. No input is in two hands, held by two
/// outputs, or in a hand and held, and one that nobody has claimed is in no hand and not held. An output that was
/// asked holds the input or one that it prefers, and none that it prefers to its partner in the matching that is
/// best for the inputs.
pub fn rule_shows_proposals()
    ensures { (o : Orders) (words : List ℕ) (views : List View) →
        IsLedger o words views → ShowsProposals o words views }
{}
