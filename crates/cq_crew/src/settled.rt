//! A phase that was settled.
ghost use Rattle.std.specs.Prelude.{◌≡◌};
ghost use Rattle.cq_crew.specs.Settling.{phase_of};

use cq_ledger::{Closed, Phase};

/// A phase, and whether workers shared it.
#[derive(Drop)]
pub enum Settled {
    /// Two workers or more proposed on one ledger, and this is what closing it gave.
    Shared(Closed),
    /// One thread settled it, and these are its proposals.
    Alone(Phase),
}

impl Settled {
    /// The matching, and how many proposals were made for it.
    pub fn phase(&self) -> Phase
        ensures { result ≡ phase_of self.now }
    {
        match self {
            Settled::Shared(closed) => closed.phase(),
            Settled::Alone(phase) => *phase,
        }
    }
}
