//! The list of one output.
ghost use Rattle.std.specs.Prelude.{◌≡◌, ◌<◌, ◌==◌, ◌^◌, IfOk, [], drop, length, slice_get};
ghost use Rattle.cq_ideal.specs.Terms.{HasOtherKey, put};

use cq_base::{NoMemory, Queued};
use cq_urgency::OutputBuffer;
use std::alloc::Global;
use std::marker::Model;

/// The cells that wait for an output, in the order of their keys: a buffer of cells as the outputs of the fabric have.
/// Contracts see the cells, and how many there is room for.
///
/// The room is reserved at the start, and no more of it is touched than has ever been needed at one time.
#[derive(Drop)]
pub struct Queue {
    buffer: OutputBuffer,
}

impl Model for Queue {
    ghost use Rattle.std.specs.Prelude.{◌+◌, length};
    ghost use Rattle.cq_ideal.specs.Parts.{QueueView};

    ghost Value = { QueueView };

    ghost view = { λ q. record { cells = q.buffer.cells; room = length q.buffer.cells + q.buffer.spare } };
}

impl Queue {
    /// No cell waits, and there is room for so many. The error is want of memory.
    pub fn new(alloc: Global, room: u64) -> Result<Queue, NoMemory>
        ensures cells { IfOk result (λ queue. queue.cells ≡ []) }
        ensures room { IfOk result (λ queue. queue.room ≡ room) }
        ensures few { IfOk result (λ queue. queue.room < 2 ^ 64) }
    {
        Ok(Queue {
            buffer: OutputBuffer::new(alloc, room)?,
        })
    }

    /// Puts a cell at its place in the order of keys. It takes no memory.
    #[tactic(auto, using(cq_base::proofs::Putting::length_put))]
    pub fn put(&mut self, queued: Queued)
        requires room { length self.old.cells < self.old.room }
        requires other_key { HasOtherKey queued self.old.cells }
        ensures cells { self.new.cells ≡ put queued self.old.cells }
        ensures room { self.new.room ≡ self.old.room }
    {
        self.buffer.put(queued);
    }

    /// Takes the first cell out, if there is one.
    pub fn pop(&mut self) -> Option<Queued>
        ensures first { result ≡ slice_get self.old.cells 0 }
        ensures cells { self.new.cells ≡ drop 1 self.old.cells }
        ensures room { self.new.room ≡ self.old.room }
    {
        self.buffer.pop()
    }

    /// Whether no cell waits.
    pub fn is_empty(&self) -> bool
        ensures { result ≡ (length self.now.cells == 0) }
    {
        self.buffer.len() == 0
    }
}
