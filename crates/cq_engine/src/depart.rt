//! How the outputs send.
ghost use Rattle.std.specs.Prelude.{◌≡◌, ◌+◌, ◌-◌, ◌<◌, ◌≤◌, ◌^◌, ◌++◌, ℕ, Some, is_some, if◌then◌else◌, length, map, max, slice_get};
ghost use Rattle.std.specs.List.{enumerate_from, list_any};
ghost use Rattle.cq_engine.specs.Terms.{OutputFigures, departures_in, fronts, rests, came_to, output_counted, CanSend, EachHasSent, most_ports};

use crate::measure::count_outputs;
use cq_base::{Departure, Figures, Port, Queued, Room, Slot};
use cq_fabric::{Gone, Queues, release, tell};
use cq_ideal::{Limiter, Ranks};
use cq_rank::Rank;

// Whether any output sent a cell.
fn any_sent(gone: &[Option<Queued>]) -> bool
    ensures { result ≡ list_any is_some gone.now }
{
    gone.iter().any(|queued| queued.is_some())
}

// The cells that left are put at the end of what was sent.
#[tactic(auto, unfolding(cq_ideal::specs::IdealSlot::departures_in))]
fn send(slot: Slot, gone: &[Option<Queued>], sent: &mut Room<Departure>)
    requires few { length gone.now ≤ most_ports }
    requires room { length gone.now ≤ sent.old.spare }
    ensures items { sent.new.items ≡ sent.old.items ++ departures_in slot gone.now }
    ensures spare { sent.new.spare + length (departures_in slot gone.now) ≡ sent.old.spare }
{
    'outputs: for (output, queued) in gone.iter().enumerate() {
        if let Some(queued) = *queued {
            sent.push(Departure {
                slot,
                output: output as Port,
                queued,
            });
        }
    }
}

// What was seen of the outputs, with a slot more.
fn count_departures(figures: &mut Figures, slot: Slot, gone: &[Option<Queued>])
    requires early { slot < 2 ^ 64 - 1 }
    requires ports { length figures.old.outputs ≡ length gone.now }
    requires counts { (j : ℕ) (x : OutputFigures) → slice_get figures.old.outputs j ≡ Some x → x.cells < 2 ^ 64 - 1 }
    ensures slots { figures.new.slots ≡
        (if list_any is_some gone.now then max figures.old.slots (slot + 1) else figures.old.slots) }
    ensures outputs { figures.new.outputs ≡ map (λ at. output_counted slot (came_to gone.now at.0) at.1)
        (enumerate_from 0 figures.old.outputs) }
    ensures inputs { figures.new.inputs ≡ figures.old.inputs }
    ensures proposals { figures.new.proposals ≡ figures.old.proposals }
    ensures most { figures.new.most ≡ figures.old.most }
{
    count_outputs(&mut figures.outputs, slot, gone);
    if any_sent(gone) {
        figures.slots = figures.slots.max(slot + 1);
    }
}

/// Each output sends the cell of its place in `gone`, which it then holds no longer, or is idle. Its machine is told,
/// and it is counted.
pub fn leave<R: Rank>(
    ranks: &mut Ranks<R>,
    limiter: &mut Limiter,
    figures: &mut Figures,
    gone: &[Option<Queued>],
    slot: Slot,
    sent: &mut Room<Departure>,
)
    requires few { length gone.now ≤ most_ports }
    requires send { CanSend slot gone.now ranks.old limiter.old figures.old sent.old }
    ensures sent { EachHasSent (map R.machine ranks.old.fixed) slot gone.now ranks.old ranks.new limiter.old limiter.new
        figures.old figures.new sent.old sent.new }
    ensures input_figures { figures.new.inputs ≡ figures.old.inputs }
{
    tell(ranks, gone);
    release(limiter, gone);
    send(slot, gone, sent);
    count_departures(figures, slot, gone);
}

/// Each output sends the first cell of its buffer, which it then holds no longer, or is idle. Its machine is told, and
/// it is counted. `places` are lent for what is sent.
#[tactic(auto, using(cq_ideal::proofs::Changed::list_steps))]
pub fn depart<R: Rank>(
    ranks: &mut Ranks<R>,
    queues: &mut Queues,
    limiter: &mut Limiter,
    figures: &mut Figures,
    places: &mut Gone,
    slot: Slot,
    sent: &mut Room<Departure>,
)
    requires { CanSend slot (fronts queues.old.buffers) ranks.old limiter.old figures.old sent.old }
    ensures sent { EachHasSent (map R.machine ranks.old.fixed) slot (fronts queues.old.buffers) ranks.old ranks.new
        limiter.old limiter.new figures.old figures.new sent.old sent.new }
    ensures input_figures { figures.new.inputs ≡ figures.old.inputs }
    ensures inputs { queues.new.inputs ≡ queues.old.inputs }
    ensures buffers { queues.new.buffers ≡ rests queues.old.buffers }
    ensures from_inputs { queues.new.from_inputs ≡ queues.old.from_inputs }
    ensures to_outputs { queues.new.to_outputs ≡ queues.old.to_outputs }
{
    let ports = queues.ports();
    queues.depart(places);
    let gone = places.of_outputs(ports);
    leave(ranks, limiter, figures, gone, slot, sent);
}
