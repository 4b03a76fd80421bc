//! Finding the matching of a phase, and transferring it.
ghost use Rattle.cq_engine.specs.Terms.{CanBeCrossed, HasCrossed};

use cq_base::{Room, Slot, Transfer};
use cq_crew::{Gate, pair_phase, settle_kept};
use cq_fabric::Queues;
use cq_pair::Core;
use std::alloc::Global;
use std::thread::Threads;

/// The input-best matching of the offers is transferred, and noted. One worker finds it in `core`, which is kept
/// between phases, and of more workers so many at most propose at once. Where nothing is offered none is looked for,
/// and nothing is transferred. The answer is how many proposals were made.
pub fn cross<T: Threads + Sync, G: Gate>(
    core: &mut Core,
    queues: &mut Queues,
    rt: &T,
    alloc: Global,
    workers: u16,
    slot: Slot,
    phase: u8,
    gate: &G,
    note: &mut Room<Transfer>,
) -> u64
    requires can { CanBeCrossed workers queues.old note.old }
    ensures { HasCrossed slot phase queues.old queues.new note.old note.new result }
{
    if queues.offers().are_none() {
        return 0;
    }
    if workers > 1 {
        return cross_shared(queues, rt, alloc, workers, slot, phase, gate, note);
    }
    settle_kept(queues.offers(), core);
    queues.cross(core.pairs(), slot, phase, note);
    core.made()
}

// The same by several workers. It stands apart, so that a slot of one worker has no place for what they need.
#[inline(never)]
fn cross_shared<T: Threads + Sync, G: Gate>(
    queues: &mut Queues,
    rt: &T,
    alloc: Global,
    workers: u16,
    slot: Slot,
    phase: u8,
    gate: &G,
    note: &mut Room<Transfer>,
) -> u64
    requires can { CanBeCrossed workers queues.old note.old }
    ensures { HasCrossed slot phase queues.old queues.new note.old note.new result }
{
    let settled = pair_phase(rt, alloc, queues.offers(), workers, gate).phase();
    queues.cross(&settled.matching, slot, phase, note);
    settled.proposals
}
