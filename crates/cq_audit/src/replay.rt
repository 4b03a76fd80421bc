//! A fabric that goes by the lines of a log.
//!
//! It is the fabric of the definitions, with the matchings that the lines tell in place of ones that were looked for.
ghost use Rattle.std.specs.Prelude.{◌≡◌, ◌<◌, ◌≤◌, ◌↔◌, [], IfErr, IfOk, IsTrue, length, map, replicate};
ghost use Rattle.cq_audit.specs.Terms.{AreForOneSwitch, IsEmptyFabric, empty_limited_fabric, IsPhaseFault, in_phase, CanCome, CanReplay, HasRested, IsInStep, IsSlotFault, SlotReplayed, shown, CanGoBy, CanSend, HasGoneBy, HaveAllSent, HaveCome, is_from, is_to, most_ports, rooms_of};

use crate::crossing::cross;
use crate::parted::part;
use crate::phase::PhaseFault;
use cq_base::{Arrivals, NoMemory, Room, Slot, Transfer};
use cq_cells::Schedule;
use cq_fabric::{Gone, Queues, release, tell};
use cq_ideal::{Limiter, Newcomers, Ranks};
use cq_rank::Rank;
use cq_traffic::{rooms_from, rooms_to};
use std::alloc::Global;
use std::marker::Model;

/// What is wrong with the lines of a slot.
#[derive(Clone, Copy)]
pub(crate) struct SlotFault {
    /// The phase, 1 or 2.
    pub phase: u8,
    /// Its first fault.
    pub fault: PhaseFault,
}

/// A fabric whose matchings are told. Contracts see the numbers that give the rank machines, the limits of the
/// outputs, the fabric with its marks, how many cells each output holds, and how many each list and each buffer can
/// hold.
#[derive(Drop)]
pub(crate) struct Replay<R: Rank> {
    ranks: Ranks<R>,
    queues: Queues,
    limiter: Limiter,
    came: Newcomers,
    gone: Gone,
}

impl<R: Rank> Model for Replay<R> {
    ghost use Rattle.cq_audit.specs.Replay.{ReplayView, shown};

    ghost Value = { ReplayView };

    ghost view = { λ a. shown a.ranks a.queues a.limiter };
}

// What arrives comes: it is judged, and what is admitted gets its keys and goes into the lists of its inputs.
#[tactic(auto, using(crate::proofs::Slots::come_to_ports, crate::proofs::Slots::lengths))]
fn come<R: Rank>(
    ranks: &mut Ranks<R>,
    queues: &mut Queues,
    limiter: &mut Limiter,
    slot: Slot,
    arrivals: &Arrivals,
    came: &mut Newcomers,
)
    requires { CanCome (map R.machine ranks.old.fixed) slot arrivals.now (shown ranks.old queues.old limiter.old) }
    ensures { HaveCome (map R.machine ranks.old.fixed) slot arrivals.now ranks.old ranks.new queues.old queues.new
        limiter.old limiter.new }
{
    // Its contract tells that there are 64 lists at most.
    let _ports = queues.ports();
    limiter.judge(arrivals);
    if let Err(_) = ranks.take(slot, arrivals, limiter, came) {
        // The ideal switch has no tag fault, and so this fabric has none.
        unreachable!()
    }
    queues.arrive(came);
}

// Goes by the lines of a phase: the transfers that they tell are made and noted. The answer is the lines behind them.
fn go_by<'a>(
    queues: &mut Queues,
    slot: Slot,
    phase: u8,
    lines: &'a [Transfer],
    note: &mut Room<Transfer>,
) -> Result<&'a [Transfer], SlotFault>
    requires { CanGoBy slot phase lines.now queues.old note.old }
    ensures gone_by { IfOk result (λ rest. HasGoneBy slot phase lines.now rest.now queues.old queues.new note.old
        note.new) }
    ensures fault { IfErr result (λ f. (f.phase ≡ phase)
        × IsPhaseFault queues.old.inputs (in_phase slot phase lines.now) f.fault) }
{
    let (own, rest) = part(lines, slot, phase);
    match cross(queues, slot, phase, own, note) {
        Ok(()) => Ok(rest),
        Err(fault) => Err(SlotFault { phase, fault }),
    }
}

// Each output sends the first cell of its buffer, which it then holds no longer, or is idle. Its machine is told.
fn send<R: Rank>(
    ranks: &mut Ranks<R>,
    queues: &mut Queues,
    limiter: &mut Limiter,
    places: &mut Gone,
)
    requires { CanSend ranks.old queues.old limiter.old }
    ensures { HaveAllSent (map R.machine ranks.old.fixed) ranks.old ranks.new queues.old queues.new limiter.old
        limiter.new }
{
    let ports = queues.ports();
    queues.depart(places);
    let gone = places.of_outputs(ports);
    tell(ranks, gone);
    release(limiter, gone);
}

// No cell waits, and the lists and the buffers of so many ports have room for all cells that arrive by this schedule.
#[tactic(auto, using(crate::proofs::Slots::lengths))]
fn queues_for(alloc: Global, schedule: &Schedule, ports: u16) -> Result<Queues, NoMemory>
    requires few { ports ≤ most_ports }
    requires ports { ports ≤ schedule.now.ports }
    ensures inputs { IfOk result (λ q. q.inputs ≡ replicate ports []) }
    ensures buffers { IfOk result (λ q. q.buffers ≡ replicate ports []) }
    ensures from_inputs { IfOk result (λ q. q.from_inputs ≡ rooms_of is_from schedule.now.came ports) }
    ensures to_outputs { IfOk result (λ q. q.to_outputs ≡ rooms_of is_to schedule.now.came ports) }
{
    let from_inputs = rooms_from(alloc, schedule, ports)?;
    let to_outputs = rooms_to(alloc, schedule, ports)?;
    Queues::new(alloc, from_inputs.as_slice(), to_outputs.as_slice())
}

impl<R: Rank> Replay<R> {
    /// A fabric with an input and an output for each rank. No cell waits, the lists and the buffers have room for all
    /// cells that arrive by this schedule, and output j has the limit `limits[j]`, or none. All memory that slots need
    /// is taken here. The error is want of memory.
    #[tactic(auto, using(crate::proofs::Slots::lengths))]
    pub fn new(
        alloc: Global,
        ranks: Vec<R>,
        limits: &[Option<u64>],
        schedule: &Schedule,
    ) -> Result<Replay<R>, NoMemory>
        requires machines { AreForOneSwitch (map R.machine (map R.fixed ranks.items)) }
        requires limits { length limits.now ≡ length ranks.items }
        requires ports { length ranks.items ≤ schedule.now.ports }
        ensures fixed { IfOk result (λ replay. replay.fixed ≡ map R.fixed ranks.items) }
        ensures limits { IfOk result (λ replay. replay.limits ≡ limits.now) }
        ensures fabric { IfOk result (λ replay. replay.fabric
            ≡ empty_limited_fabric (length ranks.items) (map R.state ranks.items)) }
        ensures from_inputs { IfOk result (λ replay. replay.from_inputs
            ≡ rooms_of is_from schedule.now.came (length ranks.items)) }
        ensures to_outputs { IfOk result (λ replay. replay.to_outputs
            ≡ rooms_of is_to schedule.now.came (length ranks.items)) }
        ensures in_step { IfOk result (λ replay. IsInStep (map R.machine replay.fixed) 0 replay) }
    {
        let ports = ranks.len() as u16;
        Ok(Replay {
            queues: queues_for(alloc, schedule, ports)?,
            limiter: Limiter::new(alloc, limits)?,
            ranks: Ranks::of(ranks),
            came: Newcomers::none(),
            gone: Gone::none(),
        })
    }

    /// One slot: the cells that are admitted arrive, the transfers that the lines of its first phase tell are made,
    /// each output sends or is idle, and those of its second phase are made. The answer is the lines behind it. The
    /// transfers are noted. It takes no memory, and no list is read from end to end.
    ///
    /// The error is the first fault of the first phase whose lines are not the transfers of a stable matching. Then
    /// the fabric stands in the middle of the slot, and none follows.
    pub fn slot<'a>(
        &mut self,
        slot: Slot,
        arrivals: &Arrivals,
        lines: &'a [Transfer],
        note: &mut Room<Transfer>,
    ) -> Result<&'a [Transfer], SlotFault>
        requires { CanReplay (map R.machine self.old.fixed) slot arrivals.now lines.now self.old note.old }
        ensures slot { IfOk result (λ rest. SlotReplayed (map R.machine self.old.fixed) slot arrivals.now lines.now
            rest.now self.old self.new note.old note.new) }
        ensures fault { IfErr result (IsSlotFault (map R.machine self.old.fixed) slot arrivals.now lines.now self.old) }
    {
        come(
            &mut self.ranks,
            &mut self.queues,
            &mut self.limiter,
            slot,
            arrivals,
            &mut self.came,
        );
        let behind = go_by(&mut self.queues, slot, 1, lines, note)?;
        send(
            &mut self.ranks,
            &mut self.queues,
            &mut self.limiter,
            &mut self.gone,
        );
        let rest = go_by(&mut self.queues, slot, 2, behind, note)?;
        Ok(rest)
    }

    /// All slots from this one on up to the other, in which no cell arrives and none waits, and of which there is no
    /// line. They take no longer than one slot: each machine is told once that its output was idle, however many slots
    /// there are, so that both are given for the clauses alone.
    #[tactic(auto, using(crate::proofs::Slots::rest_steps))]
    pub fn rest(&mut self, _slot: Slot, _to: Slot)
        requires in_step { IsInStep (map R.machine self.old.fixed) _slot self.old }
        requires empty { IsEmptyFabric self.old.fabric.state }
        requires later { _slot < _to }
        ensures { HasRested (map R.machine self.old.fixed) _slot _to self.old self.new }
    {
        self.ranks.rest();
    }

    /// Whether no cell waits, at an input or at an output.
    pub fn empty(&self) -> bool
        ensures { IsTrue result ↔ IsEmptyFabric self.now.fabric.state }
    {
        self.queues.are_empty()
    }
}
