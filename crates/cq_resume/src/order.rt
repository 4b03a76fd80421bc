//! Whether the lines of a state stand in order.
ghost use Rattle.std.specs.Prelude.{◌≡◌, ◌↔◌, ◌<◌, AllPairs, IsTrue, None, replicate};
ghost use Rattle.std.specs.List.{AllByRecursion};
ghost use Rattle.cq_resume.specs.Terms.{AreOrdered, IsBefore, BuffersStand, IsBufferedBefore, IsListedBefore, IsNoLaterInput, IsSentBefore, IsTimely, ListsStand, SentStand, IsAheadInList, list_goes_on, most_ports, IsTransferBefore};

use crate::found::{Found, Gone};
use crate::laned::{Laned, lanes_in_order};
use crate::neighbours::neighbours_hold;
use cq_base::{Key, MOST_PORTS, Queued, Slot, Transfer};
use cq_state::State;

/// Whether a cell is more urgent than another.
pub fn is_before(queued: &Queued, other: &Queued) -> bool
    ensures { IsTrue result ↔ IsBefore queued.now other.now }
{
    queued.key.precedes(other.key)
}

// Whether a cell is of no later input than another.
fn is_no_later(queued: &Queued, other: &Queued) -> bool
    ensures { IsTrue result ↔ IsNoLaterInput queued.now other.now }
{
    queued.key.input <= other.key.input
}

// Whether the lists stand by input.
fn inputs_in_order(listed: &[Queued]) -> bool
    ensures { IsTrue result ↔ AllPairs IsNoLaterInput listed.now }
{
    neighbours_hold(listed, is_no_later)
}

// No cell was seen for any output.
fn none_seen() -> [Option<Queued>; MOST_PORTS]
    ensures { result ≡ replicate most_ports None }
{
    [None; MOST_PORTS]
}

// The list of an input has a lane for each output: its cells stand by input, and those of one input by their keys.
impl Laned for Queued {
    ghost lane_of = { λ q. q.cell.output };

    ghost stands_before = { IsAheadInList };

    ghost goes_on = { list_goes_on };

    fn lane(&self) -> usize {
        self.cell.output as usize
    }

    fn is_ahead(&self, other: &Queued) -> bool {
        self.key.input < other.key.input
            || self.key.input == other.key.input && is_before(self, other)
    }
}

// Whether the cells of each list for one output stand by their keys. The lists stand by input.
#[tactic(auto, using(crate::proofs::Lanes::list_steps))]
fn keys_in_order(listed: &[Queued]) -> bool
    requires outputs { AllByRecursion (λ q. q.cell.output < most_ports) listed.now }
    requires inputs { AllPairs IsNoLaterInput listed.now }
    ensures { IsTrue result ↔ AllPairs IsListedBefore listed.now }
{
    let mut last = none_seen();
    lanes_in_order(listed, &mut last)
}

// Whether the lists stand by input, and the cells of each for one output by their keys.
fn lists_in_order(listed: &[Queued]) -> bool
    requires { AllByRecursion (λ q. q.cell.output < most_ports) listed.now }
    ensures { IsTrue result ↔ ListsStand listed.now }
{
    inputs_in_order(listed) && keys_in_order(listed)
}

// Whether a buffered cell stands before another: by output, then by key.
#[tactic(auto, unfolding(cq_base::specs::Key::is_before))]
fn is_buffered_before(queued: &Queued, other: &Queued) -> bool
    ensures { IsTrue result ↔ IsBufferedBefore queued.now other.now }
{
    (queued.cell.output, queued.key) < (other.cell.output, other.key)
}

// Whether the buffers stand by output, and the cells of each by their keys.
fn buffers_in_order(buffered: &[Queued]) -> bool
    ensures { IsTrue result ↔ BuffersStand buffered.now }
{
    neighbours_hold(buffered, is_buffered_before)
}

// Whether a departure is before another: by slot, then by output.
fn is_sent_before(gone: &Gone, other: &Gone) -> bool
    ensures { IsTrue result ↔ IsSentBefore gone.now other.now }
{
    (gone.slot, gone.queued.cell.output) < (other.slot, other.queued.cell.output)
}

// Whether the departures stand by slot and then by output.
fn sent_in_order(sent: &[Gone]) -> bool
    ensures { IsTrue result ↔ AllPairs IsSentBefore sent.now }
{
    neighbours_hold(sent, is_sent_before)
}

// Whether a departure is in a slot from its cell's arrival up to the next one.
fn is_timely(gone: &Gone, next: Slot) -> bool
    ensures { IsTrue result ↔ IsTimely next gone.now }
{
    gone.queued.key.slot <= gone.slot && gone.slot < next
}

// Whether all departures are.
fn are_timely(sent: &[Gone], next: Slot) -> bool
    ensures { IsTrue result ↔ AllByRecursion (IsTimely next) sent.now }
{
    sent.iter().all(|gone| is_timely(gone, next))
}

// Whether the departures stand by slot and then by output, and each has its time.
fn departures_in_order(sent: &[Gone], next: Slot) -> bool
    ensures { IsTrue result ↔ SentStand next sent.now }
{
    sent_in_order(sent) && are_timely(sent, next)
}

// Whether a transfer is before another: by slot, then by phase, then by input.
fn is_moved_before(transfer: &Transfer, other: &Transfer) -> bool
    ensures { IsTrue result ↔ IsTransferBefore transfer.now other.now }
{
    (transfer.slot, transfer.phase, transfer.input) < (other.slot, other.phase, other.input)
}

// Whether the transfers stand by slot, then by phase, then by input.
fn moved_in_order(moved: &[Transfer]) -> bool
    ensures { IsTrue result ↔ AllPairs IsTransferBefore moved.now }
{
    neighbours_hold(moved, is_moved_before)
}

// Whether a transfer is before the next slot.
fn is_early(transfer: &Transfer, next: Slot) -> bool
    ensures { IsTrue result ↔ (transfer.now.slot < next) }
{
    transfer.slot < next
}

// Whether all transfers are.
fn are_before(moved: &[Transfer], next: Slot) -> bool
    ensures { IsTrue result ↔ AllByRecursion (λ t. t.slot < next) moved.now }
{
    moved.iter().all(|transfer| is_early(transfer, next))
}

// Whether the transfers stand by slot, then by phase, then by input, and each is before the next slot.
fn transfers_in_order(moved: &[Transfer], next: Slot) -> bool
    ensures { IsTrue result ↔ (AllPairs IsTransferBefore moved.now × AllByRecursion (λ t. t.slot < next) moved.now) }
{
    moved_in_order(moved) && are_before(moved, next)
}

/// Whether all lines of a state, of which these cells were found, stand in order, the cells of a list for one output by
/// their keys, and each departure and each transfer has its time.
pub fn in_order(found: &Found, state: &State) -> bool
    requires { AllByRecursion (λ q. q.cell.output < most_ports) found.now.listed.items }
    ensures { IsTrue result ↔ AreOrdered found.now state.now.head.next state.now.moved }
{
    lists_in_order(&found.listed)
        && buffers_in_order(&found.buffered)
        && departures_in_order(&found.sent, state.head.next)
        && transfers_in_order(state.moved.as_slice(), state.head.next)
}
