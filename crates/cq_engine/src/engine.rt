//! The engine: a fabric, slot by slot.
ghost use Rattle.std.specs.Prelude.{◌≡◌, ◌↔◌, ◌+◌, ◌-◌, ◌^◌, ◌<◌, IsTrue, false, is_err, IfOk, OnOk, OnErr, length, map, max};
ghost use Rattle.cq_engine.specs.Terms.{class_count, AreForPorts, ranking, IsEmptyFabric, no_figures, CanBeMade, CanGoOn, HasGoneOn, HasStopped, IsMadeAs, IsReadyFor, SlotDone, answer_to, fresh_engine, frozen_of, thawed_engine, its_admission, ports_of, HasRested};

use crate::copied::{copied_figures, limiter_of};
use crate::depart::depart;
use crate::measure::{Look, count_inputs};
use crate::settle::cross;
use crate::straight::{go_straight, pass};
use cq_base::{
    Arrivals, Departure, Figures, InputFigures, NoMemory, OutputFigures, Room, Sequence, Slot,
    TagFault, Transfer,
};
use cq_crew::Gate;
use cq_fabric::{Gone, Queues};
use cq_ideal::{Limiter, Newcomers, Ranks, Refused, take_in};
use cq_laws::Frozen;
use cq_pair::Core;
use cq_rank::Rank;
use std::alloc::Global;
use std::marker::Model;
use std::thread::Threads;

/// A fabric, which is in step with an ideal switch (Chuang, Goel, McKeown and Prabhakar 1999). In a slot the
/// arriving cells are ranked and go into the lists of their inputs, a matching is transferred, each output
/// sends the most urgent cell of its buffer, and a second matching is transferred. Both matchings are the
/// ones that are best for the inputs, whichever worker proposes first. Where an output has a limit, and as many cells
/// or more are for it at the inputs and in its buffer as the first cell of a packet arrives, that packet is refused
/// whole.
///
/// Contracts see the numbers that give the rank machines, the limits of the outputs, the fabric, the marks of the
/// inputs, what was refused, how many cells each list and each buffer can hold, the figures, the next slot, and whether
/// the engine is stopped.
#[derive(Drop)]
pub struct Engine<R: Rank> {
    ranks: Ranks<R>,
    queues: Queues,
    limiter: Limiter,
    figures: Figures,
    came: Newcomers,
    gone: Gone,
    core: Core,
    workers: u16,
    next: Slot,
    look: Look,
    stopped: bool,
}

/// What an engine saw of its slots.
#[derive(Drop)]
pub struct Seen {
    /// Their figures.
    pub figures: Figures,
    /// How many packets and cells were refused, at each output that has a limit, in order of output.
    pub refused: Vec<Refused>,
}

impl<R: Rank> Model for Engine<R> {
    ghost use Rattle.std.specs.Prelude.{◌≡◌, false, map};
    ghost use Rattle.cq_engine.specs.Engine.{AreWorkers, EngineView, IsRunning};
    ghost use Rattle.cq_fabric.specs.Queues.{fabric_of};

    ghost Value = { EngineView };

    ghost view = { λ a. record {
      fixed = a.ranks.fixed;
      limits = a.limiter.limits;
      fabric = fabric_of a.queues a.ranks.states;
      marks = a.limiter.marks;
      refused = a.limiter.refused;
      from_inputs = a.queues.from_inputs;
      to_outputs = a.queues.to_outputs;
      figures = a.figures;
      next = a.next;
      stopped = a.stopped;
    } };

    ghost invariant = { λ a. AreWorkers a.workers × (a.stopped ≡ false → IsRunning (map R.machine a.ranks.fixed) a.next
        a.look a.figures (fabric_of a.queues a.ranks.states) a.limiter) };
}

// Nothing was seen yet of so many inputs and outputs.
fn no_figures(alloc: Global, ports: usize) -> Result<Figures, NoMemory>
    ensures { IfOk result (λ figures. figures ≡ no_figures ports) }
{
    let input = InputFigures {
        cells: 0,
        longest: 0,
        slack: None,
    };
    let output = OutputFigures {
        cells: 0,
        wait: None,
    };
    Ok(Figures {
        slots: 0,
        proposals: 0,
        most: 0,
        inputs: Sequence::of(vec![in alloc; input; ports]?),
        outputs: Sequence::of(vec![in alloc; output; ports]?),
    })
}

// Adds the proposals of the two phases of a slot.
fn count_proposals(figures: &mut Figures, first: u64, second: u64)
    requires { figures.old.proposals + (first + second) < 2 ^ 64 }
    ensures proposals { figures.new.proposals ≡ figures.old.proposals + (first + second) }
    ensures most { figures.new.most ≡ max figures.old.most (max first second) }
    ensures slots { figures.new.slots ≡ figures.old.slots }
    ensures inputs { figures.new.inputs ≡ figures.old.inputs }
    ensures outputs { figures.new.outputs ≡ figures.old.outputs }
{
    figures.proposals += first + second;
    figures.most = figures.most.max(first.max(second));
}

impl<R: Rank> Engine<R> {
    /// An engine with an input and an output for each rank, which is not stopped. No cell waits, list i has
    /// room for `from_inputs[i]` cells and buffer j for `to_outputs[j]`, output j has the limit `limits[j]`, or none,
    /// no packet is refused, nothing was refused or counted, and the next slot is 0. In a slot so many workers at most
    /// propose at once. All memory that a slot needs is taken here. The error is want of memory.
    #[tactic(auto, using(cq_ideal::proofs::Changed::list_steps))]
    pub fn new(
        alloc: Global,
        ranks: Vec<R>,
        from_inputs: &[u64],
        to_outputs: &[u64],
        limits: &[Option<u64>],
        workers: u16,
    ) -> Result<Engine<R>, NoMemory>
        requires { CanBeMade (map R.machine (map R.fixed ranks.items)) (length ranks.items) from_inputs.now
            to_outputs.now limits.now workers }
        ensures { IfOk result (λ engine. engine ≡ fresh_engine (length ranks.items) (map R.fixed ranks.items)
            (map R.state ranks.items) from_inputs.now to_outputs.now limits.now) }
    {
        Ok(Engine {
            queues: Queues::new(alloc, from_inputs, to_outputs)?,
            limiter: Limiter::new(alloc, limits)?,
            figures: no_figures(alloc, from_inputs.len())?,
            ranks: Ranks::of(ranks),
            came: Newcomers::none(),
            gone: Gone::none(),
            core: Core::none(),
            workers,
            next: 0,
            look: Look::Arriving,
            stopped: false,
        })
    }

    /// An engine that goes on from a state in which another stood still, with an input and an output for each rank, and
    /// is not stopped. The ranks take on the states of their machines. List i has room for `from_inputs[i]` cells and
    /// buffer j for `to_outputs[j]`, those that it begins with included, which have to fit; output j has the limit
    /// `limits[j]`, or none. In a slot so many workers at most propose at once. All memory that a slot needs is taken
    /// here. The first slot looks at all cells that wait, since nothing is known yet of their slack. The error is want
    /// of memory, and comes too where an output holds more cells than 64 bits count, which no memory has.
    #[tactic(auto, using(crate::proofs::Going::thaw_steps))]
    pub fn thaw(
        alloc: Global,
        ranks: Vec<R>,
        from_inputs: &[u64],
        to_outputs: &[u64],
        limits: &[Option<u64>],
        workers: u16,
        from: &Frozen,
    ) -> Result<Engine<R>, NoMemory>
        requires made { CanBeMade (map R.machine (map R.fixed ranks.items)) (length ranks.items) from_inputs.now
            to_outputs.now limits.now workers }
        requires goes_on { CanGoOn (map R.machine (map R.fixed ranks.items)) limits.now from_inputs.now to_outputs.now
            from.now }
        ensures { IfOk result (λ engine. engine ≡ thawed_engine (map R.fixed ranks.items) limits.now from_inputs.now
            to_outputs.now from.now) }
    {
        let limiter = limiter_of(alloc, limits, from)?;
        let figures = copied_figures(alloc, &from.figures)?;
        let lists = from.lists.as_slice();
        let buffers = from.buffers.as_slice();
        let queues = Queues::holding(alloc, from_inputs, to_outputs, lists, buffers)?;
        let mut ranks = Ranks::of(ranks);
        let states = from.ranks.as_slice();
        ranks.put(states);
        Ok(Engine {
            ranks,
            queues,
            limiter,
            figures,
            came: Newcomers::none(),
            gone: Gone::none(),
            core: Core::none(),
            workers,
            next: from.next,
            look: Look::All,
            stopped: false,
        })
    }

    /// The state in which it stands between two slots, with all that was counted. The error is want of memory.
    #[tactic(auto, using(crate::proofs::Shown::running_steps))]
    pub fn freeze(&self, alloc: Global) -> Result<Frozen, NoMemory>
        requires { self.now.stopped ≡ false }
        ensures { IfOk result (λ frozen. frozen ≡ frozen_of self.now) }
    {
        let refused = Sequence::copy_of(alloc, self.limiter.refused())?;
        let marks = Sequence::copy_of(alloc, self.limiter.marks())?;
        let figures = copied_figures(alloc, &self.figures)?;
        let ranks = self.ranks.numbers(alloc)?;
        let lists = self.queues.listed(alloc)?;
        let buffers = self.queues.buffered(alloc)?;
        Ok(Frozen {
            next: self.next,
            figures,
            refused,
            marks,
            ranks,
            lists,
            buffers,
        })
    }

    /// One slot: the cells arrive and are admitted or refused, the input-best matching is transferred, each output
    /// sends or is idle, and the input-best matching is transferred again. The departures are put at the end of
    /// `sent`, in order of output, and the transfers at the end of `note`, phase by phase and in order of input. The
    /// slot is added to the figures, and the cells that are refused are counted. `gate` is told of the steps of the
    /// workers, and changes nothing of what is found.
    ///
    /// No memory is needed for a slot to succeed: a phase of two workers or more takes a ledger, and is settled
    /// by one thread where there is none. The first slot after `thaw` takes some to look at all cells of a list at
    /// once, and looks for each where there is none.
    ///
    /// The error is the first rank, in order of input, that does not fit 128 bits. Then `sent`, `note`, the figures,
    /// the counts of what was refused, the lists, the buffers and the next slot are as before, and the engine is
    /// stopped.
    pub fn slot<T: Threads + Sync, G: Gate>(
        &mut self,
        rt: &T,
        alloc: Global,
        slot: Slot,
        arrivals: &Arrivals,
        gate: &G,
        sent: &mut Room<Departure>,
        note: &mut Room<Transfer>,
    ) -> Result<(), TagFault>
        requires running { self.old.stopped ≡ false }
        requires next { slot ≡ self.old.next }
        requires early { slot < 2 ^ 64 - 1 }
        requires arrivals { AreForPorts (ports_of self.old) (class_count (map R.machine self.old.fixed)) arrivals.now }
        requires ready { IsReadyFor arrivals.now self.old sent.old note.old }
        ensures answer { result ≡ answer_to (ranking (map R.machine self.old.fixed) slot 0
            (its_admission arrivals.now self.old).cells self.old.fabric.ranks) }
        ensures slot { OnOk result (SlotDone (map R.machine self.old.fixed) slot arrivals.now self.old self.new sent.old
            sent.new note.old note.new) }
        ensures went_on { OnOk result (HasGoneOn slot self.old self.new) }
        ensures made { IsMadeAs self.old self.new }
        ensures stopped { self.new.stopped ≡ is_err result }
        ensures stays { OnErr result (HasStopped self.old self.new sent.old sent.new note.old note.new) }
    {
        let ranks = &mut self.ranks;
        let queues = &mut self.queues;
        let limiter = &mut self.limiter;
        let figures = &mut self.figures;
        let ports = queues.ports();
        if let Err(fault) = take_in(ranks, limiter, &mut self.came, slot, arrivals) {
            self.stopped = true;
            return Err(fault);
        }
        let look = self.look;
        self.look = Look::Arriving;
        self.next = slot + 1;
        let came = &self.came;
        if go_straight(queues, came, &mut self.gone) {
            let gone = self.gone.of_outputs(ports);
            let crossed = pass(ranks, limiter, figures, came, gone, slot, sent, note);
            count_proposals(figures, crossed, 0);
            return Ok(());
        }
        queues.arrive(came);
        count_inputs(alloc, look, &mut figures.inputs, queues, came);
        let workers = self.workers;
        let core = &mut self.core;
        let first = cross(core, queues, rt, alloc, workers, slot, 1, gate, note);
        depart(ranks, queues, limiter, figures, &mut self.gone, slot, sent);
        let second = cross(core, queues, rt, alloc, workers, slot, 2, gate, note);
        count_proposals(figures, first, second);
        Ok(())
    }

    /// All slots from the next one up to this one, in which no cell arrives. None waits either, so nothing crosses,
    /// no output sends and no figure changes, and they take no longer than one slot: each machine is told once that
    /// its output was idle, since a second idle slot would change nothing. The marks stay as they are, and nothing is
    /// refused.
    #[tactic(auto, using(crate::proofs::Shown::running_steps))]
    pub fn rest(&mut self, to: Slot)
        requires running { self.old.stopped ≡ false }
        requires empty { IsEmptyFabric self.old.fabric }
        requires later { self.old.next < to }
        ensures { HasRested (map R.machine self.old.fixed) self.old.next to self.old self.new }
    {
        self.ranks.rest();
        self.next = to;
    }

    /// Whether a slot had a tag fault. No slot follows it.
    pub fn stopped(&self) -> bool
        ensures { result ≡ self.now.stopped }
    {
        self.stopped
    }

    /// Whether no cell waits, at an input or at an output.
    pub fn empty(&self) -> bool
        ensures { IsTrue result ↔ IsEmptyFabric self.now.fabric }
    {
        self.queues.are_empty()
    }

    /// The slot that comes next.
    pub fn next(&self) -> Slot
        ensures { result ≡ self.now.next }
    {
        self.next
    }

    /// What was seen of the slots so far.
    pub fn figures(&self) -> &Figures
        ensures { result.now ≡ self.now.figures }
    {
        &self.figures
    }

    /// How many packets and cells were refused so far, at each output that has a limit, in order of output.
    pub fn refused(&self) -> &[Refused]
        ensures { result.now ≡ self.now.refused }
    {
        self.limiter.refused()
    }

    /// What was seen of the slots, and what was refused, without the engine.
    pub fn into_seen(self) -> Seen
        ensures figures { result.figures ≡ self.figures }
        ensures refused { result.refused.items ≡ self.refused }
    {
        let Engine {
            ranks: _,
            queues: _,
            limiter,
            figures,
            came: _,
            gone: _,
            core: _,
            workers: _,
            next: _,
            look: _,
            stopped: _,
        } = self;
        Seen {
            figures,
            refused: limiter.into_refused(),
        }
    }
}
