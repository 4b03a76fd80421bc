//! The ideal switch, slot by slot.
ghost use Rattle.std.specs.Prelude.{◌≡◌, ◌↔◌, ◌<◌, IsTrue, false, is_err, IfOk, OnErr, length, map};
ghost use Rattle.cq_ideal.specs.Terms.{AreForOneSwitch, fresh_ideal, answer_to, its_slot, IsEmptyIdeal, CanHaveSlot, HasHadSlot, IsSameSwitch, IsUnchanged, HasRested};

use crate::Refused;
use crate::limiter::Limiter;
use crate::newcomers::Newcomers;
use crate::queues::Queues;
use crate::ranks::Ranks;
use crate::send::send;
use crate::taking::take_in;
use cq_base::{Arrivals, Departure, NoMemory, Room, Slot, TagFault};
use cq_rank::Rank;
use std::alloc::Global;
use std::marker::Model;

/// An ideal output-queued switch (the yardstick of Chuang, Goel, McKeown and Prabhakar 1999): the cells of an output
/// wait in one list by their keys. In a slot the arriving cells are ranked and put into the lists of
/// their outputs, and then each output sends the first cell of its list, or is idle. Where an output has a limit
/// and holds as many cells or more as the first cell of a packet arrives, that packet is refused whole.
///
/// Contracts see the numbers that give the rank machines, the limits of the outputs, the lists and the states of the
/// machines, the marks of the inputs, what was refused, how many cells each list can hold, the next slot, and whether
/// the switch is stopped.
#[derive(Drop)]
pub struct Ideal<R: Rank> {
    ranks: Ranks<R>,
    queues: Queues,
    limiter: Limiter,
    came: Newcomers,
    next: Slot,
    stopped: bool,
}

impl<R: Rank> Model for Ideal<R> {
    ghost use Rattle.std.specs.Prelude.{map};
    ghost use Rattle.cq_ideal.specs.Ideal.{IdealSwitch};
    ghost use Rattle.cq_ideal.specs.Parts.{AreParts};

    ghost Value = { IdealSwitch };

    ghost view = { λ a. record {
      fixed = a.ranks.fixed;
      limits = a.limiter.limits;
      state = record { lists = a.queues.lists; ranks = a.ranks.states };
      marks = a.limiter.marks;
      refused = a.limiter.refused;
      rooms = a.queues.rooms;
      next = a.next;
      stopped = a.stopped;
    } };

    ghost invariant = { λ a. AreParts (map R.machine a.ranks.fixed) a.ranks a.queues a.limiter a.next a.stopped };
}

impl<R: Rank> Ideal<R> {
    /// A switch with an output for each rank, which is not stopped. All lists are empty, list j has room for
    /// `rooms[j]` cells, and output j has the limit `limits[j]`, or none. No packet is refused, nothing was, and the
    /// next slot is 0. The error is want of memory.
    pub fn new(
        alloc: Global,
        ranks: Vec<R>,
        rooms: &[u64],
        limits: &[Option<u64>],
    ) -> Result<Ideal<R>, NoMemory>
        requires machines { AreForOneSwitch (map R.machine (map R.fixed ranks.items)) }
        requires rooms { length rooms.now ≡ length ranks.items }
        requires limits { length limits.now ≡ length ranks.items }
        ensures { IfOk result (λ ideal. ideal ≡ fresh_ideal (length ranks.items) (map R.fixed ranks.items)
            (map R.state ranks.items) limits.now rooms.now) }
    {
        Ok(Ideal {
            queues: Queues::new(alloc, rooms)?,
            limiter: Limiter::new(alloc, limits)?,
            ranks: Ranks::of(ranks),
            came: Newcomers::none(),
            next: 0,
            stopped: false,
        })
    }

    /// One slot: the cells arrive, and each output sends the first of its list or is idle. The departures
    /// are put at the end of `sent`, in order of output. A cell that is admitted takes one of the spare places of its
    /// list, and one that leaves gives it back. The cells that are refused are counted. It takes no memory.
    ///
    /// The error is the first rank, in order of input, that does not fit 128 bits. Then `sent`, the lists, the counts
    /// and the next slot are as before, and the switch is stopped.
    pub fn slot(
        &mut self,
        slot: Slot,
        arrivals: &Arrivals,
        sent: &mut Room<Departure>,
    ) -> Result<(), TagFault>
        requires { CanHaveSlot (map R.machine self.old.fixed) slot arrivals.now self.old sent.old }
        ensures answer { result ≡ answer_to (its_slot (map R.machine self.old.fixed) slot arrivals.now self.old) }
        ensures slot { IfOk (its_slot (map R.machine self.old.fixed) slot arrivals.now self.old) (λ of_slot.
            HasHadSlot slot of_slot self.old self.new sent.old sent.new) }
        ensures unchanged { OnErr result (IsUnchanged self.old self.new sent.old sent.new) }
        ensures same { IsSameSwitch self.old self.new }
        ensures stopped { self.new.stopped ≡ is_err result }
    {
        // Its contract tells that each list is within its room.
        let _outputs = self.queues.len();
        if let Err(fault) = take_in(
            &mut self.ranks,
            &mut self.limiter,
            &mut self.came,
            slot,
            arrivals,
        ) {
            self.stopped = true;
            return Err(fault);
        }
        self.queues.arrive(&self.came);
        send(
            &mut self.ranks,
            &mut self.queues,
            &mut self.limiter,
            slot,
            sent,
        );
        self.next = slot + 1;
        Ok(())
    }

    /// All slots from the next one up to this one, in which no cell arrives. None waits either, so no output sends
    /// a cell, and they take no longer than one slot: each machine is told once that its output was idle, since a
    /// second idle slot would change nothing. The marks stay as they are, and nothing is refused.
    pub fn rest(&mut self, to: Slot)
        requires running { self.old.stopped ≡ false }
        requires empty { IsEmptyIdeal self.old.state }
        requires later { self.old.next < to }
        ensures { HasRested (map R.machine self.old.fixed) self.old.next to self.old self.new }
    {
        self.ranks.rest();
        self.next = to;
    }

    /// How many packets and cells were refused so far, at each output that has a limit, in order of output.
    pub fn refused(&self) -> &[Refused]
        ensures { result.now ≡ self.now.refused }
    {
        self.limiter.refused()
    }

    /// Whether a slot had a tag fault. No slot follows it.
    pub fn stopped(&self) -> bool
        ensures { result ≡ self.now.stopped }
    {
        self.stopped
    }

    /// Whether no cell waits.
    pub fn empty(&self) -> bool
        ensures { IsTrue result ↔ IsEmptyIdeal self.now.state }
    {
        self.queues.are_empty()
    }

    /// The slot that comes next.
    pub fn next(&self) -> Slot
        ensures { result ≡ self.now.next }
    {
        self.next
    }
}
