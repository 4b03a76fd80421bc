//! The lines of a phase, held against what the lists offer.
ghost use Rattle.std.specs.Prelude.{◌≡◌, ◌≤◌, IfErr, IfOk, length};
ghost use Rattle.cq_audit.specs.Terms.{cells_of, most_ports, orders_of, AreOfPhase, IsPhaseFault, IsStableTold};

use crate::blocking::first_blocking;
use crate::pairs::Pairs;
use crate::told::told;
use cq_base::{Port, Slot, Transfer};
use cq_list::InputList;
use cq_prefs::Offers;

/// What is wrong with the lines of a phase.
#[derive(Clone, Copy, Debug, PartialEq, Eq)]
pub enum PhaseFault {
    /// The line of this input, the least such, does not name its first cell for an output that is still free.
    WrongLine(Port),
    /// This input and this output, the first such pair, show that the matching is not stable.
    Blocking(Port, Port),
}

/// The stable matching that the lines of a phase tell. The error is the least input whose line does not name its
/// first cell for an output that is still free; or, where each line does, the first pair that shows that their
/// matching is not stable, by the orders of the offers: no list is read for that. It takes no memory. The slot and the
/// phase are given for the clauses alone.
pub fn stable_told(
    lists: &[InputList],
    offers: &Offers,
    _slot: Slot,
    _phase: u8,
    lines: &[Transfer],
) -> Result<Pairs, PhaseFault>
    requires few { length lists.now ≤ most_ports }
    requires offers { offers.now ≡ orders_of (cells_of lists.now) }
    requires lines { AreOfPhase (length lists.now) _slot _phase lines.now }
    ensures stable { IfOk result (IsStableTold (cells_of lists.now) _slot _phase lines.now) }
    ensures fault { IfErr result (IsPhaseFault (cells_of lists.now) lines.now) }
{
    let pairs = match told(lists, lines) {
        Ok(pairs) => pairs,
        Err(input) => return Err(PhaseFault::WrongLine(input)),
    };
    match first_blocking(offers, &pairs) {
        Some((input, output)) => Err(PhaseFault::Blocking(input, output)),
        None => Ok(pairs),
    }
}
