//! A ledger that was closed.
ghost use Rattle.std.specs.Prelude.{◌≡◌};

use cq_prefs::Phase;
use std::marker::Model;

/// The phase of a ledger that was closed. `Ledger::close` alone makes one. Contracts see it as the phase.
#[derive(Drop)]
pub struct Closed {
    pub(crate) phase: Phase,
}

impl Model for Closed {
    ghost use Rattle.cq_prefs.specs.declared.outcome.Phase.{Phase};

    ghost Value = { Phase };

    ghost view = { λ a. a.phase };
}

impl Closed {
    /// The matching, and how many proposals were made for it.
    pub fn phase(&self) -> Phase
        ensures { result ≡ self.now }
    {
        self.phase
    }
}
