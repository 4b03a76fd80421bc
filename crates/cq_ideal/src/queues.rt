//! The lists of all outputs.
ghost use Rattle.std.specs.Prelude.{◌≡◌, ◌<◌, ◌≤◌, ◌==◌, ◌^◌, ◌↔◌, ℕ, IsTrue, All, IfOk, IfSome, [], drop, length, replicate, slice_get, slice_index, slice_set};
ghost use Rattle.std.specs.List.{list_all};
ghost use Rattle.cq_ideal.specs.Terms.{filled, AreWithinRooms, CameToPorts, CanPut, HaveOwnKeys, HaveRoomFor, list_at, most_ports, with_came, with_cell};

use crate::newcomers::Newcomers;
use crate::queue::Queue;
use cq_base::{NoMemory, Port, Queued};
use std::alloc::Global;
use std::marker::Model;

/// Per output the cells that wait for it. Contracts see these lists, and how many cells each can hold.
#[derive(Drop)]
pub struct Queues {
    queues: Vec<Queue>,
}

impl Model for Queues {
    ghost use Rattle.std.specs.Prelude.{All, map};
    ghost use Rattle.cq_ideal.specs.Parts.{IsWithin, QueuesView};

    ghost Value = { QueuesView };

    ghost view = { λ a. record {
      lists = map (λ q. q.cells) a.queues.items;
      rooms = map (λ q. q.room) a.queues.items;
    } };

    ghost invariant = { λ a. All IsWithin a.queues.items };
}

// Whether each of the lists is empty.
fn none_wait(queues: &[Queue]) -> bool
    ensures { result ≡ list_all (λ q. length q.cells == 0) queues.now }
{
    queues.iter().all(|queue| queue.is_empty())
}

#[tactic(auto, using(crate::proofs::Changed::queue_steps))]
impl Queues {
    /// No cell waits, and the list of each output can hold so many. The error is want of memory.
    pub fn new(alloc: Global, rooms: &[u64]) -> Result<Queues, NoMemory>
        ensures lists { IfOk result (λ queues. queues.lists ≡ replicate (length rooms.now) []) }
        ensures rooms { IfOk result (λ queues. queues.rooms ≡ rooms.now) }
    {
        let mut queues = Vec::with_capacity(alloc, rooms.len())?;
        for room in rooms {
            queues.push(Queue::new(alloc, *room)?)?;
        }
        Ok(Queues { queues })
    }

    /// How many outputs there are.
    pub fn len(&self) -> u16
        requires { length self.now.lists ≤ most_ports }
        ensures len { result ≡ length self.now.lists }
        ensures within { AreWithinRooms self.now }
        ensures few { (j : ℕ) → slice_index self.now.rooms j < 2 ^ 64 }
    {
        self.queues.len() as u16
    }

    /// Puts a cell into the list of its output, at its place in the order of keys.
    pub fn put(&mut self, queued: Queued)
        requires { CanPut queued self.old }
        ensures lists { self.new.lists ≡ with_cell queued self.old.lists }
        ensures rooms { self.new.rooms ≡ self.old.rooms }
    {
        self.queues[queued.cell.output as usize].put(queued);
    }

    // Puts the cell that came to an input into the list of its output, if one came.
    fn put_if(&mut self, came: Option<Queued>)
        requires { IfSome came (λ q. CanPut q self.old) }
        ensures lists { self.new.lists ≡ with_came came self.old.lists }
        ensures rooms { self.new.rooms ≡ self.old.rooms }
    {
        if let Some(queued) = came {
            self.put(queued);
        }
    }

    /// The cells that came go into the lists of their outputs, each at its place in the order of keys.
    #[tactic(auto, using(crate::proofs::Came::arrive_steps))]
    pub fn arrive(&mut self, came: &Newcomers)
        requires few { length self.old.lists ≤ most_ports }
        requires as_many { length self.old.rooms ≡ length self.old.lists }
        requires ports { CameToPorts (length self.old.lists) came.now }
        requires room { HaveRoomFor came.now self.old }
        requires keys { HaveOwnKeys came.now self.old.lists }
        ensures lists { self.new.lists ≡ filled came.now self.old.lists }
        ensures rooms { self.new.rooms ≡ self.old.rooms }
        ensures within { AreWithinRooms self.old }
    {
        let ports = self.len();
        'inputs: for input in 0..ports {
            self.put_if(came.at(input as usize));
        }
    }

    /// Takes the first cell for an output out, if there is one.
    pub fn pop(&mut self, output: Port) -> Option<Queued>
        requires { output < length self.old.lists }
        ensures first { result ≡ slice_get (list_at self.old.lists output) 0 }
        ensures lists { self.new.lists ≡ slice_set self.old.lists output (drop 1 (list_at self.old.lists output)) }
        ensures rooms { self.new.rooms ≡ self.old.rooms }
    {
        self.queues[output as usize].pop()
    }

    /// Whether no cell waits for any output.
    pub fn are_empty(&self) -> bool
        ensures { IsTrue result ↔ All (λ xs. xs ≡ []) self.now.lists }
    {
        none_wait(&self.queues)
    }
}
