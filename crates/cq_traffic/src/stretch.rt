//! Stretches of slots in which no cell arrives.
ghost use Rattle.cq_traffic.specs.Stretch.{IsQuietUntil};

use cq_base::Slot;
use cq_cells::{Coming, Schedule};

/// The slot up to which no cell arrives: that of the next arrival, at or after this one, or this one where none arrives
/// any more.
#[tactic(auto, using(crate::proofs::Arriving::next_steps))]
pub fn quiet_until(schedule: &Schedule, slot: Slot) -> Slot
    ensures { IsQuietUntil schedule.now.came slot result }
{
    schedule.next_arrival(slot).unwrap_or(slot)
}

/// The slot up to which no cell arrives, as [`quiet_until`] tells it. It is looked for near the cells that came last.
#[tactic(auto, using(crate::proofs::Arriving::next_steps))]
pub fn quiet_near(schedule: &Schedule, slot: Slot, coming: &Coming) -> Slot
    ensures { IsQuietUntil schedule.now.came slot result }
{
    schedule.next_near(slot, coming).unwrap_or(slot)
}
