//! Workers in threads of their own.
ghost use Rattle.std.specs.Thread.{IsSync};
ghost use Rattle.cq_crew.specs.Work.{CanWork, HasWorked};

use crate::gate::Gate;
use crate::worker::work;
use cq_ledger::{Ledger, LedgerSeat};
use std::thread::{Threads, join};

/// The work of so many workers, numbered from the first on. Their number is halved until one is left, and each
/// half has a seat of its own. Where no thread can be started the caller does both halves, one after the other.
#[cycle(halves)]
pub(crate) fn work_all<R: Threads + Sync, G: Gate>(
    rt: &R,
    ledger: &Ledger,
    mut seat: LedgerSeat,
    first: u16,
    count: u16,
    inputs: u16,
    gate: &G,
) -> LedgerSeat
    requires { CanWork ledger.now seat first count inputs }
    ensures { HasWorked ledger.now seat.view result }
{
    if count == 1 {
        return work(ledger, seat, first, inputs, gate);
    }
    let low = count / 2;
    let high = count - low;
    let middle = first + low;
    let other = ledger.split(&mut seat);
    let lower = move || -> LedgerSeat
        requires sync { IsSync R.row × IsSync G.row }
        requires work { CanWork ledger.now seat first low inputs }
        ensures { HasWorked ledger.entry.now seat.view result }
    { work_all(rt, ledger, seat, first, low, inputs, gate) };
    let upper = move || -> LedgerSeat
        requires sync { IsSync R.row × IsSync G.row }
        requires work { CanWork ledger.now other middle high inputs }
        ensures { HasWorked ledger.entry.now other.view result }
    { work_all(rt, ledger, other, middle, high, inputs, gate) };
    let (mut both, theirs) = join(rt, lower, upper);
    ledger.join(&mut both, theirs);
    both
}
