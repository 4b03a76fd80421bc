//! The figures of a run, added slot by slot. Each law is the contract of a function that does nothing.
ghost use Rattle.std.specs.Prelude.{◌≡◌, ℕ, List, [], ◌∷◌, ◌++◌, fold};
ghost use Rattle.cq_laws.specs.Terms.{SlotRecord, figures_of, figures_after, no_figures};

/// The figures of a run are those before its first slot, with the record of each slot added in turn.
#[tactic(auto, using(crate::proofs::AddingUp::figure_steps))]
pub fn figures_add_up()
    ensures none { (ports : ℕ) → figures_of ports [] ≡ no_figures ports }
    ensures one_more { (ports : ℕ) (rs : List SlotRecord) (r : SlotRecord) →
        figures_of ports (rs ++ r ∷ []) ≡ figures_after (figures_of ports rs) r }
    ensures fold { (ports : ℕ) (rs : List SlotRecord) → figures_of ports rs ≡ fold figures_after (no_figures ports) rs }
{}
