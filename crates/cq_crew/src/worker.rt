//! One worker's work on its seat.
ghost use Rattle.std.specs.Prelude.{◌≡◌, ◌<◌, ◌≤◌, None, Some};
ghost use Rattle.cq_prefs.specs.Orders.{ports};
ghost use Rattle.cq_ledger.specs.Seats.{IsSeatOf};
ghost use Rattle.cq_ledger.specs.Steps.{first_tried};
ghost use Rattle.cq_crew.specs.Work.{CanWork, HasTried, HasWorked, HaveTried, IsIdleAfter, ProposesFor};

use crate::gate::Gate;
use cq_base::Port;
use cq_ledger::{Ledger, LedgerSeat};

/// Tries to claim every input, its own number first and then upwards and around, and after each claim that
/// succeeds proposes until the hand is empty.
#[tactic(auto, using(crate::proofs::Working::work_steps))]
pub(crate) fn work<G: Gate>(
    ledger: &Ledger,
    mut seat: LedgerSeat,
    worker: u16,
    inputs: u16,
    gate: &G,
) -> LedgerSeat
    requires { CanWork ledger.now seat worker 1 inputs }
    ensures { HasWorked ledger.now seat.view result }
{
    claim_one(ledger, &mut seat, worker, worker, gate);
    claim_between(ledger, &mut seat, worker, worker + 1, inputs, gate);
    claim_between(ledger, &mut seat, worker, 0, worker, gate);
    seat
}

// Tries to claim the inputs from one number up to another, for a worker that has begun.
#[tactic(auto, using(crate::proofs::Working::work_steps))]
fn claim_between<G: Gate>(
    ledger: &Ledger,
    seat: &mut LedgerSeat,
    worker: u16,
    from: Port,
    to: Port,
    gate: &G,
)
    requires seat { IsSeatOf ledger.now seat.old }
    requires hand { seat.old.view.hand ≡ None }
    requires began { seat.old.view.began ≡ Some worker }
    requires order { from ≤ to }
    requires to { to ≤ ports ledger.now.offers }
    ensures idle { IsIdleAfter ledger.now seat.old.view seat.new }
    ensures tried { HaveTried seat.new.view from to }
    ensures began { seat.new.view.began ≡ Some worker }
{
    'inputs: for input in from..to {
        claim_one(ledger, seat, worker, input, gate);
    }
}

// Tries to claim an input, and proposes until the hand is empty where it was unclaimed. The first that a worker tries
// is that of its own number.
fn claim_one<G: Gate>(ledger: &Ledger, seat: &mut LedgerSeat, worker: u16, input: Port, gate: &G)
    requires seat { IsSeatOf ledger.now seat.old }
    requires hand { seat.old.view.hand ≡ None }
    requires input { input < ports ledger.now.offers }
    requires first { first_tried seat.old.view.began input ≡ Some worker }
    ensures idle { IsIdleAfter ledger.now seat.old.view seat.new }
    ensures tried { HasTried seat.new.view input }
    ensures began { seat.new.view.began ≡ Some worker }
{
    if !ledger.claim(seat, input) {
        return;
    }
    gate.claimed(worker, input);
    propose_all(ledger, seat, worker, gate);
}

// Proposes until the hand is empty.
fn propose_all<G: Gate>(ledger: &Ledger, seat: &mut LedgerSeat, worker: u16, gate: &G)
    requires seat { IsSeatOf ledger.now seat.old }
    requires began { seat.old.view.began ≡ Some worker }
    ensures seat { IsSeatOf ledger.now seat.new }
    ensures hand { seat.new.view.hand ≡ None }
    ensures proposes { ProposesFor seat.old.view seat.new.view }
{
    'proposals: while let Some(input) = seat.hand() {
        let outcome = ledger.propose(seat);
        gate.proposed(worker, input, outcome, seat);
    }
}
