//! How the outputs of an ideal switch send.
ghost use Rattle.std.specs.Prelude.{◌≡◌, ◌+◌, ◌<◌, ◌≤◌, ◌++◌, ◌∷◌, IfSome, [], length, map};
ghost use Rattle.cq_ideal.specs.IdealSlot.{departures_from};
ghost use Rattle.cq_ideal.specs.Terms.{HaveLeft, fronts, HoldsLists, JudgesAsBefore, AreTold, FirstsHaveLeft, FitTogether};

use crate::limiter::Limiter;
use crate::queues::Queues;
use crate::ranks::Ranks;
use cq_base::{Departure, Port, Queued, Room, Slot};
use cq_rank::Rank;

// The departure of a cell from an output is put at the end of what was sent, if it sent one.
fn note_departure(slot: Slot, output: Port, gone: Option<Queued>, sent: &mut Room<Departure>)
    requires { IfSome gone (λ _. 0 < sent.old.spare) }
    ensures items { sent.new.items ≡ sent.old.items ++ departures_from slot output (gone ∷ []) }
    ensures spare { sent.new.spare + length (departures_from slot output (gone ∷ [])) ≡ sent.old.spare }
{
    if let Some(queued) = gone {
        sent.push(Departure {
            slot,
            output,
            queued,
        });
    }
}

/// Each output sends the first cell of its list, or is idle, and its machine is told. It holds that cell no longer.
#[tactic(auto, using(crate::proofs::Sending::send_steps), unfolding(crate::specs::IdealSlot::departures_in))]
pub fn send<R: Rank>(
    ranks: &mut Ranks<R>,
    queues: &mut Queues,
    limiter: &mut Limiter,
    slot: Slot,
    sent: &mut Room<Departure>,
)
    requires fit { FitTogether (map R.machine ranks.old.fixed) ranks.old queues.old }
    requires holds { HoldsLists queues.old.lists limiter.old }
    requires sent { length ranks.old.fixed ≤ sent.old.spare }
    ensures told { AreTold (map R.machine ranks.old.fixed) (fronts queues.old.lists) ranks.old ranks.new }
    ensures gone { FirstsHaveLeft queues.old queues.new }
    ensures left { HaveLeft slot (fronts queues.old.lists) sent.old sent.new }
    ensures fit { FitTogether (map R.machine ranks.new.fixed) ranks.new queues.new }
    ensures holds { HoldsLists queues.new.lists limiter.new }
    ensures judges { JudgesAsBefore limiter.old limiter.new }
{
    let ports = queues.len();
    'outputs: for output in 0..ports {
        let gone = queues.pop(output);
        ranks.told(output, gone);
        limiter.sent(output, gone);
        note_departure(slot, output, gone, sent);
    }
}
