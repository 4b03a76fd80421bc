//! One phase, by as many workers as are asked for and of use.
ghost use Rattle.std.specs.Prelude.{◌≡◌, ◌≤◌, ◌↔◌, [], IfSome, IsTrue};
ghost use Rattle.cq_base.specs.Limits.{most_workers};
ghost use Rattle.cq_prefs.specs.Orders.{ports};
ghost use Rattle.cq_pair.specs.Progress.{IsReached};
ghost use Rattle.cq_ledger.specs.Seats.{HasClaimedAll};
ghost use Rattle.cq_crew.specs.Settling.{IsBestAfter, IsBestPhase, IsShared, phase_of, workers_used};

use crate::crew::work_all;
use crate::gate::Gate;
use crate::settled::Settled;
use cq_ledger::{Closed, Ledger, LedgerSeat, Phase};
use cq_pair::{Core, LastFirst};
use cq_prefs::Offers;
use std::alloc::Global;
use std::thread::Threads;

/// Finds the matching that is best for the inputs (Gale and Shapley 1962), by no more workers than are asked for
/// and no more than there are inputs with an offer. The phase does not depend on how many they are, on the gate,
/// or on who comes first. There is no refusal.
///
/// Two workers or more share a ledger. Each tries to claim the input of its own number, those above it and then
/// those below, and tells the gate of its claims and proposals. Fewer than two, or too little memory for a
/// ledger, and one thread settles the phase alone, with nothing told. Should an input be left that no worker
/// claimed, one thread settles the phase anew.
pub fn pair_phase<R: Threads + Sync, G: Gate>(
    rt: &R,
    alloc: Global,
    offers: &Offers,
    workers: u16,
    gate: &G,
) -> Settled
    requires some { 1 ≤ workers }
    requires few { workers ≤ most_workers }
    ensures phase { IsBestPhase offers.now (phase_of result) }
    ensures shared { IsShared result → 2 ≤ workers_used offers.now workers }
{
    if workers >= 2 {
        let used = workers.min(offers.offering());
        if used >= 2 {
            if let Some(closed) = settle_shared(rt, alloc, offers, used, gate) {
                return Settled::Shared(closed);
            }
        }
    }
    Settled::Alone(settle_alone(offers))
}

/// The matching of a phase by one thread, found in a core that is kept from phase to phase. It is the one that
/// `pair_phase` finds, with as many proposals, for a caller that has no second worker. Whatever the core came to before
/// changes nothing of it, and then no input in it is free.
#[tactic(auto, using(crate::proofs::Phases::best_steps))]
pub fn settle_kept(offers: &Offers, core: &mut Core)
    ensures best { IsBestAfter offers.now core.new.made core.new.matching }
    ensures reached { IsReached offers.now core.new }
    ensures nobody_free { core.new.free ≡ [] }
{
    // Its contract tells that the orders of both sides fit together.
    let _ports = offers.ports();
    core.begin_again(offers);
    core.settle(offers, &mut LastFirst);
}

// The phase by one thread.
fn settle_alone(offers: &Offers) -> Phase
    ensures { IsBestPhase offers.now result }
{
    let mut core = Core::none();
    settle_kept(offers, &mut core);
    Phase {
        matching: *core.pairs(),
        proposals: core.made(),
    }
}

// The phase by so many workers, or None where there is no memory for their ledger, or an input is left that none
// of them claimed.
fn settle_shared<R: Threads + Sync, G: Gate>(
    rt: &R,
    alloc: Global,
    offers: &Offers,
    workers: u16,
    gate: &G,
) -> Option<Closed>
    requires some { 1 ≤ workers }
    requires few { workers ≤ ports offers.now }
    ensures { IfSome result (IsBestPhase offers.now) }
{
    let inputs = offers.ports();
    let Ok((ledger, seat)) = Ledger::start(alloc, offers) else {
        return None;
    };
    let seat = work_all(rt, &ledger, seat, 0, workers, inputs, gate);
    if !has_claimed_all(&seat, inputs) {
        return None;
    }
    // Its contract tells how many proposals there can be.
    let _made = seat.made();
    Some(ledger.close(seat))
}

// Whether a seat has claimed every port.
#[tactic(auto, using(crate::proofs::Working::work_steps))]
fn has_claimed_all(seat: &LedgerSeat, inputs: u16) -> bool
    requires { inputs ≡ ports seat.now.view.offers }
    ensures { IsTrue result ↔ HasClaimedAll seat.now }
{
    'claims: for input in 0..inputs {
        if !seat.claimed(input) {
            return false;
        }
    }
    true
}
