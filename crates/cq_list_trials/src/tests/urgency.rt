//! The buffer of an output: a worked one, the calls that are drawn, and the call that wants memory, with ample
//! memory.
ghost use Rattle.std.specs.Prelude.{◌≡◌, ◌+◌, ◌<◌, IfOk, length};
ghost use Rattle.cq_base.specs.Cells.{ArrivedBefore};

use super::drawn::{Keeper, Plain};
use cq_base::{Key, NoMemory, Queued};
use cq_trial_kit::{Draws, waiting};
use cq_urgency::OutputBuffer;
use std::alloc::Global;
use std::test::Fail;

// The newest cell comes in.
#[tactic(auto, using(cq_base::proofs::Lists::other_key_newest, crate::proofs::Arrived::arrived_put, cq_base::proofs::Putting::length_put))]
fn come(buffer: &mut OutputBuffer, queued: Queued)
    requires spare { 0 < buffer.old.spare }
    requires newest { ArrivedBefore queued.key.slot buffer.old.cells }
    ensures len { length buffer.new.cells ≡ length buffer.old.cells + 1 }
    ensures spare { buffer.new.spare + 1 ≡ buffer.old.spare }
    ensures come { ArrivedBefore (queued.key.slot + 1) buffer.new.cells }
{
    buffer.put(queued);
}

// Cells of ranks 5, 2, 5 and 9 come in, in slots 0 to 3.
fn four_cells(alloc: Global) -> Result<OutputBuffer, NoMemory>
    ensures { IfOk result (λ buffer. length buffer.cells ≡ 4) }
{
    let mut buffer = OutputBuffer::new(alloc, 4)?;
    come(&mut buffer, waiting(0, 0, 5, 0));
    come(&mut buffer, waiting(0, 0, 2, 1));
    come(&mut buffer, waiting(0, 0, 5, 2));
    come(&mut buffer, waiting(0, 0, 9, 3));
    Ok(buffer)
}

// Whether the four cells wait in the order of their ranks and then of their arrival, as do those that are to come, and
// the first of them leaves first.
fn wait_in_order(buffer: &mut OutputBuffer) -> bool
    requires { length buffer.old.cells ≡ 4 }
{
    let slots = [
        buffer.at(0).key.slot,
        buffer.at(1).key.slot,
        buffer.at(2).key.slot,
        buffer.at(3).key.slot,
    ];
    let cushions = [
        buffer.cushion(waiting(0, 0, 5, 2).key),
        buffer.cushion(waiting(0, 0, 5, 3).key),
    ];
    let first = buffer.pop();
    slots == [1, 0, 2, 3]
        && cushions == [2, 3]
        && first == Some(waiting(0, 0, 2, 1))
        && buffer.len() == 3
}

#[test]
fn equal_ranks_wait_in_the_order_of_their_arrival(rt: HostRuntime) -> Result<(), Fail> {
    let mut buffer = four_cells(rt.alloc())?;
    assert!(rt; wait_in_order(&mut buffer));
    Ok(())
}

// The first cell leaves.
fn leave(buffer: &mut OutputBuffer, _slot: u32) -> Option<Queued>
    requires { ArrivedBefore _slot buffer.old.cells }
    ensures arrived { ArrivedBefore (_slot + 1) buffer.new.cells }
    ensures room { buffer.new.spare + length buffer.new.cells ≡ buffer.old.spare + length buffer.old.cells }
{
    buffer.pop()
}

// Whether a cushion, the number of cells, and the cell at a drawn place are those of a plain list, in which a cell with
// this key goes in at this place.
fn is_as_plain(
    buffer: &OutputBuffer,
    plain: &[Queued],
    draws: &mut Draws,
    key: Key,
    place: usize,
) -> bool {
    let len = buffer.len();
    if buffer.cushion(key) != place as u64 || len != plain.len() as u64 {
        return false;
    }
    if len == 0 {
        return true;
    }
    let at = draws.below(len);
    plain.get(at as usize).copied() == Some(buffer.at(at))
}

impl Keeper for OutputBuffer {
    ghost awaits = { λ slot buffer. ArrivedBefore slot buffer.cells × (buffer.spare + length buffer.cells ≡ 300) };

    // Blocks split while the buffer fills, in the first half of each 800 calls, and are freed while it empties.
    fn agrees(&mut self, plain: &mut Plain, slot: u32) -> Result<bool, NoMemory> {
        let queued = waiting(0, 0, plain.draws.below(40) as u128, slot);
        let place = plain.place_in(&queued);
        let is_as = is_as_plain(self, &plain.cells, &mut plain.draws, queued.key, place);
        let fills = slot % 800 < 400;
        if self.len() < 300 && (plain.draws.below(8) < 7) == fills {
            come(self, queued);
            plain.cells.insert(place, queued)?;
            return Ok(is_as);
        }
        Ok(leave(self, slot) == plain.take(0) && is_as)
    }

    fn count(&self) -> u64 {
        self.len()
    }

    fn has_at(&self, place: u64, queued: &Queued) -> bool {
        place < self.len() && self.at(place) == *queued
    }
}
