//! What a seat knows.
ghost use Rattle.std.specs.Borrow.{ftrue};
ghost use Rattle.std.specs.Prelude.{ℕ, Option};
ghost use Rattle.cq_prefs.specs.Orders.{Orders};
ghost use Rattle.cq_prefs.specs.declared.outcome.Outcome.{Outcome};

use std::marker::Model;

/// What a seat knows: it exists in contracts alone, and no value of it is made.
pub struct View {
    /// A bit for each input that the seat has claimed.
    pub ghost claims: { ℕ },
    /// No input, or one with the place of its next proposal among its offers.
    pub ghost hand: { Option (ℕ × ℕ) },
    /// How many proposals the seat made.
    pub ghost made: { ℕ },
    /// A bit for each input that the seat has found claimed.
    pub ghost seen: { ℕ },
    /// The input that the seat tried to claim first, or None before that. A join leaves it.
    pub ghost began: { Option ℕ },
    /// The input that proposed last by this seat, and what came of it, or None before the first. A join leaves it.
    pub ghost told: { Option (ℕ × Outcome) },
    /// The offers of the ledger.
    pub ghost offers: { Orders },
}

impl Model for View {
    ghost also_owns = { λ _. ftrue };
}
