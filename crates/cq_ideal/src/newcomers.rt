//! What came to the inputs in a slot.
ghost use Rattle.std.specs.Prelude.{◌≡◌, ◌<◌, ◌≤◌, ℕ, None, length, replicate, slice_index_or, slice_set};
ghost use Rattle.cq_base.specs.Limits.{most_ports};

use cq_base::{MOST_PORTS, Port, Queued};
use std::marker::Model;

/// The cell that came to each input in a slot, with its key, if one came: in places that are filled anew for the next
/// slot, so that no array is made or copied in a slot. Contracts see the 64 places.
///
/// It keeps below which input cells may stand.
#[derive(Drop)]
pub struct Newcomers {
    places: [Option<Queued>; MOST_PORTS],
    used: u16,
}

impl Model for Newcomers {
    ghost use Rattle.std.specs.Prelude.{List, Option};
    ghost use Rattle.cq_base.specs.declared.cell.Queued.{Queued};
    ghost use Rattle.cq_ideal.specs.Newcomers.{AreUsed};

    ghost Value = { List (Option Queued) };

    ghost view = { λ a. a.places };

    ghost invariant = { λ a. AreUsed a.used a.places };
}

#[tactic(auto, using(crate::proofs::Changed::none_used, crate::proofs::Changed::item_steps))]
impl Newcomers {
    /// No cell came to any input.
    pub fn none() -> Newcomers
        ensures { result ≡ replicate most_ports None }
    {
        Newcomers {
            places: [None; MOST_PORTS],
            used: 0,
        }
    }

    /// The cell that came to an input, if one did.
    pub fn at(&self, input: usize) -> Option<Queued>
        requires { input < most_ports }
        ensures { result ≡ slice_index_or self.now input None }
    {
        self.places[input]
    }

    /// The places of so many inputs are to be filled. No cell stands behind them.
    #[tactic(auto, using(crate::proofs::Changed::none_used))]
    pub(crate) fn begin(&mut self, inputs: u16)
        ensures long { length self.new ≡ most_ports }
        ensures beyond { (k : ℕ) → inputs ≤ k → slice_index_or self.new k None ≡ None }
    {
        if self.used <= inputs {
            return;
        }
        self.places.fill(None);
        self.used = 0;
    }

    /// A cell comes to an input, or none does, in place of what was there.
    pub(crate) fn put(&mut self, input: Port, queued: Option<Queued>)
        requires { input < most_ports }
        ensures { self.new ≡ slice_set self.old input queued }
    {
        self.places[input as usize] = queued;
        self.used = self.used.max(input + 1);
    }
}
