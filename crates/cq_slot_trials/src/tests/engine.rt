//! Worked slots, drawn slots against a plain slow fabric, and the call that wants memory, with ample memory.
ghost use Rattle.std.specs.Prelude.{◌≡◌, ◌+◌, ◌^◌, ◌<◌, ◌≤◌, ℕ, IfOk, OnOk, is_err, length, map};
ghost use Rattle.cq_rank.specs.Classes.{rows_of};
ghost use Rattle.cq_rank.specs.Switch.{AreForOneSwitch, class_count};
ghost use Rattle.cq_ideal.specs.Limiter.{CanCount};
ghost use Rattle.cq_engine.specs.Engine.{IsMadeAs};
ghost use Rattle.cq_slot_trials.specs.Trial.{HasGrown, IsOnTrial};

use super::coming::Coming;
use super::outputs::note_departures;
use super::slow::{LEVELS, NOTHING_CAME, NOTHING_LEFT, PRIORITIES, Slow};
use cq_base::{
    CellId, ClassRow, Departure, Figures, InputFigures, NoMemory, OutputFigures, Queued, Room,
    Sequence, TagFault, Transfer,
};
use cq_engine::{Engine, Frozen, OpenGate, Refused};
use cq_rank::{Priority, Rank};
use cq_trial_kit::Draws;
use std::alloc::Global;
use std::thread::Threads;

// The next of 40 slots of an engine with four ports.
fn step<R: Rank, T: Threads + Sync>(
    engine: &mut Engine<R>,
    rt: &T,
    alloc: Global,
    coming: &Coming<4>,
    sent: &mut Room<Departure>,
    note: &mut Room<Transfer>,
) -> Result<(), TagFault>
    requires trial { IsOnTrial (map R.machine engine.old.fixed) engine.old }
    requires early { engine.old.next < 40 }
    requires grown { HasGrown engine.old.next engine.old }
    requires counts { CanCount 4 engine.old.refused }
    requires sent { 4 ≤ sent.old.spare }
    requires note { 8 ≤ note.old.spare }
    ensures made { IsMadeAs engine.old engine.new }
    ensures stopped { engine.new.stopped ≡ is_err result }
    ensures next { OnOk result (engine.new.next ≡ engine.old.next + 1) }
    ensures grown { OnOk result (HasGrown (engine.old.next + 1) engine.new) }
    ensures counts { OnOk result ((n : ℕ) → CanCount (n + 64) engine.old.refused → CanCount n engine.new.refused) }
{
    // Its contract tells that there are 64 places.
    let _places = coming.arrivals.at(0);
    let arrivals = &coming.arrivals;
    engine.slot(rt, alloc, engine.next(), arrivals, &OpenGate, sent, note)
}

// What is told of a run: of each departure its slot, its output, and the input and the packet of the cell, and of
// each transfer its slot, its phase, its input, its output and the packet.
#[derive(Drop)]
pub(super) struct Told {
    pub(super) sent: Vec<[u64; 4]>,
    pub(super) crossed: Vec<[u64; 5]>,
}

impl Told {
    pub(super) fn nothing(alloc: Global) -> Told {
        Told {
            sent: Vec::new(alloc),
            crossed: Vec::new(alloc),
        }
    }

    // The departures and the transfers of a slot.
    fn tell(&mut self, sent: &Room<Departure>, note: &Room<Transfer>) -> Result<(), NoMemory> {
        note_departures(&mut self.sent, sent)?;
        for transfer in note.items() {
            self.crossed.push([
                transfer.slot,
                transfer.phase as u64,
                transfer.input as u64,
                transfer.output as u64,
                transfer.id.packet as u64,
            ])?;
        }
        Ok(())
    }
}

// What a run comes to: what is told of it, the slots, the proposals and the most of them in a phase, what is seen of
// each port, what is refused, the marks, and how many cells wait at each input and in each buffer behind it.
#[derive(Clone, Copy)]
pub(super) struct Outcome<'a> {
    pub(super) sent: &'a [[u64; 4]],
    pub(super) crossed: &'a [[u64; 5]],
    pub(super) sums: [u64; 3],
    pub(super) inputs: &'a [InputFigures],
    pub(super) outputs: &'a [OutputFigures],
    pub(super) refused: &'a [Refused],
    pub(super) marks: [bool; 4],
    pub(super) in_lists: [usize; 4],
    pub(super) in_buffers: [usize; 4],
}

// What comes to an engine with these limits and so many workers, one or two, and what it comes to.
#[derive(Clone, Copy)]
struct Trial<'s, 'o> {
    workers: u16,
    limits: [Option<u64>; 4],
    slots: &'s [Coming<4>],
    outcome: Outcome<'o>,
}

// Runs these slots, and tells of each up to the first tag fault: whether there is none.
fn run<R: Rank, T: Threads + Sync>(
    rt: &T,
    alloc: Global,
    engine: &mut Engine<R>,
    slots: &[Coming<4>],
    told: &mut Told,
) -> Result<bool, NoMemory>
    requires trial { IsOnTrial (map R.machine engine.old.fixed) engine.old }
    requires next { engine.old.next ≡ 0 }
    requires grown { HasGrown 0 engine.old }
    requires counts { (n : ℕ) → n < 2 ^ 64 → CanCount n engine.old.refused }
    requires few { length slots.now ≤ 40 }
{
    'slots: for coming in slots {
        let mut sent = Room::new(alloc, 4)?;
        let mut note = Room::new(alloc, 8)?;
        if let Err(_) = step(engine, rt, alloc, coming, &mut sent, &mut note) {
            return Ok(false);
        }
        told.tell(&sent, &note)?;
    }
    Ok(true)
}

// Whether these figures are those of a run.
fn are(figures: &Figures, outcome: &Outcome) -> bool {
    [figures.slots, figures.proposals, figures.most] == outcome.sums
        && figures.inputs.as_slice() == outcome.inputs
        && figures.outputs.as_slice() == outcome.outputs
}

// Whether these have so many cells, one after the other.
fn have_lengths(queues: &[Sequence<Queued>], lengths: &[usize]) -> bool {
    for (cells, length) in queues.iter().zip(lengths) {
        if cells.as_slice().len() != *length {
            return false;
        }
    }
    queues.len() == lengths.len()
}

// Whether so many cells wait before this slot, and the marks are those behind a run.
fn is_frozen(frozen: &Frozen, next: u64, outcome: &Outcome) -> bool {
    frozen.next == next
        && have_lengths(frozen.lists.as_slice(), &outcome.in_lists)
        && have_lengths(frozen.buffers.as_slice(), &outcome.in_buffers)
        && frozen.marks.as_slice() == outcome.marks.as_slice()
}

// Whether an engine stands still before this slot, and all is as it is to be after the run.
fn stands<R: Rank>(
    alloc: Global,
    engine: &Engine<R>,
    next: u64,
    outcome: &Outcome,
) -> Result<bool, NoMemory> {
    if engine.stopped() || engine.next() != next || engine.refused() != outcome.refused {
        return Ok(false);
    }
    let frozen = engine.freeze(alloc)?;
    let is_so = is_frozen(&frozen, next, outcome);
    drop(frozen);
    let is_empty = outcome.in_lists == [0; 4] && outcome.in_buffers == [0; 4];
    Ok(is_so && engine.empty() == is_empty && are(engine.figures(), outcome))
}

// Whether an engine of these four outputs comes to what it is to come to.
fn comes_to<R: Rank, T: Threads + Sync>(
    rt: &T,
    alloc: Global,
    ranks: Vec<R>,
    trial: &Trial,
) -> Result<bool, NoMemory>
    requires ports { length ranks.items ≡ 4 }
    requires machines { AreForOneSwitch (map R.machine (map R.fixed ranks.items)) }
    requires classes { class_count (map R.machine (map R.fixed ranks.items)) ≡ 2 }
    requires few { length trial.now.slots.now ≤ 40 }
{
    let workers = trial.workers.max(1).min(2);
    let mut engine = Engine::new(alloc, ranks, &[40; 4], &[2560; 4], &trial.limits, workers)?;
    let mut told = Told::nothing(alloc);
    let runs = run(rt, alloc, &mut engine, trial.slots, &mut told);
    let outcome = &trial.outcome;
    let tells = told.sent.as_slice() == outcome.sent && told.crossed.as_slice() == outcome.crossed;
    drop(told);
    let stands = stands(alloc, &engine, trial.slots.len() as u64, outcome);
    let seen = engine.into_seen();
    let has_seen = are(&seen.figures, outcome) && seen.refused.as_slice() == outcome.refused;
    drop(seen);
    Ok(runs? && stands? && tells && has_seen)
}

// The discipline of one of four outputs: two classes with its levels, each below 16, and its priorities.
fn priority(alloc: Global, output: usize) -> Result<Priority, NoMemory>
    requires { output < 4 }
    ensures { IfOk result (λ rank. length (rows_of rank.fixed) ≡ 2) }
{
    let (levels, priorities) = (LEVELS[output], PRIORITIES[output]);
    let classes = [
        ClassRow {
            level: levels[0] % 16,
            priority: priorities[0],
            cost: 1,
        },
        ClassRow {
            level: levels[1] % 16,
            priority: priorities[1],
            cost: 1,
        },
    ];
    Priority::new(alloc, &classes)
}

// Whether an engine with these four disciplines comes to what it is to come to, in 40 slots at most.
fn prioritized<T: Threads + Sync>(rt: &T, alloc: Global, trial: &Trial) -> Result<bool, NoMemory> {
    if trial.slots.len() > 40 {
        return Ok(false);
    }
    let ranks = vec![in alloc;
        priority(alloc, 0)?,
        priority(alloc, 1)?,
        priority(alloc, 2)?,
        priority(alloc, 3)?,
    ]?;
    comes_to(rt, alloc, ranks, trial)
}

const NO_LIMITS: [Option<u64>; 4] = [None, None, None, None];

// What is seen of an input to which a cell came, and of one to which two came before one had crossed, all in time.
const ONE_CAME: InputFigures = InputFigures {
    cells: 1,
    longest: 1,
    slack: Some(0),
};

const TWO_CAME: InputFigures = InputFigures {
    cells: 2,
    longest: 2,
    ..ONE_CAME
};

// What is seen of an output that so many cells left, and that was waited for so long.
const ONE_AT_ONCE: OutputFigures = OutputFigures {
    cells: 1,
    wait: Some(0),
};

const THREE_IN_ONE: OutputFigures = OutputFigures {
    cells: 3,
    wait: Some(1),
};

const THREE_IN_TWO: OutputFigures = OutputFigures {
    wait: Some(2),
    ..THREE_IN_ONE
};

// A new cell goes ahead of an older one for a busy output.
const OVERTAKEN: Outcome = Outcome {
    sent: &[[0, 0, 0, 0], [1, 0, 1, 0], [1, 1, 2, 1], [2, 0, 2, 0]],
    crossed: &[
        [0, 1, 0, 0, 0],
        [0, 2, 1, 0, 0],
        [1, 1, 2, 1, 1],
        [1, 2, 2, 0, 0],
    ],
    sums: [3, 7, 3],
    inputs: &[ONE_CAME, ONE_CAME, TWO_CAME, NOTHING_CAME],
    outputs: &[THREE_IN_TWO, ONE_AT_ONCE, NOTHING_LEFT, NOTHING_LEFT],
    refused: &[],
    marks: [false; 4],
    in_lists: [0; 4],
    in_buffers: [0; 4],
};

// An engine that stands still tells what waits.
const LATE: Outcome = Outcome {
    sent: &[[2, 0, 0, 0]],
    crossed: &[[2, 1, 0, 0, 0], [2, 2, 1, 0, 0]],
    sums: [3, 5, 3],
    inputs: &[ONE_CAME, ONE_CAME, ONE_CAME, NOTHING_CAME],
    outputs: &[ONE_AT_ONCE, NOTHING_LEFT, NOTHING_LEFT, NOTHING_LEFT],
    refused: &[],
    marks: [false; 4],
    in_lists: [0, 0, 1, 0],
    in_buffers: [1, 0, 0, 0],
};

// The limits of a switch with crowded outputs.
const LIMITS: [Option<u64>; 4] = [Some(2), None, Some(1), None];

// Two cells fill output 0, one of which waits at input 1 for a slot. So the packet of input 2 that comes with them is
// refused, though nothing is in the buffer, and its second cell with it, though one cell has left.
const CROWDED: Outcome = Outcome {
    sent: &[[0, 0, 0, 0], [1, 0, 1, 0], [2, 0, 2, 1]],
    crossed: &[[0, 1, 0, 0, 0], [0, 2, 1, 0, 0], [2, 1, 2, 0, 1]],
    sums: [3, 4, 2],
    inputs: &[ONE_CAME, ONE_CAME, ONE_CAME, NOTHING_CAME],
    outputs: &[THREE_IN_ONE, NOTHING_LEFT, NOTHING_LEFT, NOTHING_LEFT],
    refused: &[
        Refused {
            output: 0,
            limit: 2,
            packets: 1,
            cells: 2,
        },
        Refused {
            output: 2,
            limit: 1,
            packets: 0,
            cells: 0,
        },
    ],
    marks: [false; 4],
    in_lists: [0; 4],
    in_buffers: [0; 4],
};

// Whether engines of so many workers come to the worked outcomes: cells of three inputs come for output 0, and one slot
// later a cell of input 2 for output 1; or they come in the last of three slots; or behind them the second cell of
// input 2's packet, and then another packet there.
fn come_to_worked<T: Threads + Sync>(
    rt: &T,
    alloc: Global,
    workers: u16,
) -> Result<bool, NoMemory> {
    let none = Coming::nothing();
    let three = Coming::three();
    let overtaken = Trial {
        workers,
        limits: NO_LIMITS,
        slots: &[three, none.with_packet(2, 1, 1, 0), none],
        outcome: OVERTAKEN,
    };
    let late = Trial {
        workers,
        limits: NO_LIMITS,
        slots: &[none, none, three],
        outcome: LATE,
    };
    let crowded = Trial {
        workers,
        limits: LIMITS,
        slots: &[
            three,
            none.with_second(2, 0, 0),
            none.with_packet(2, 1, 0, 0),
        ],
        outcome: CROWDED,
    };
    Ok(
        prioritized(rt, alloc, &overtaken)?
            && prioritized(rt, alloc, &late)?
            && prioritized(rt, alloc, &crowded)?,
    )
}

#[test]
fn cells_overtake_wait_and_are_refused_as_worked_by_hand(rt: HostRuntime) {
    for workers in 1..3 {
        assert!(rt; come_to_worked(&rt, rt.alloc(), workers) == Ok(true));
    }
}

// What comes in a slot at some of the first ports, for them. The packets are numbered by the slot, and a third of the
// cells come as if they were not the first of their packet.
fn drawn_arrivals(draws: &mut Draws, slot: u32, ports: u16) -> Coming<4>
    requires some { 0 < ports }
    requires few { ports ≤ 4 }
{
    let mut coming = Coming::nothing();
    for input in 0..ports {
        if draws.below(8) < 7 {
            let id = CellId {
                input,
                packet: slot,
                index: u32::from(draws.below(3) == 0),
            };
            let output = draws.below(u64::from(ports)) as u16;
            coming = coming.with_cell(id, output, draws.below(2) as u16);
        }
    }
    coming
}

// 30 slots with arrivals at two to four ports, and 10 without.
fn drawn_slots(alloc: Global, seed: u64) -> Result<Vec<Coming<4>>, NoMemory> {
    let mut draws = Draws::from_seed(seed);
    let ports = 2 + draws.below(3) as u16;
    let mut slots = Vec::new(alloc);
    for slot in 0..30 {
        slots.push(drawn_arrivals(&mut draws, slot, ports))?;
    }
    slots.resize(40, Coming::nothing())?;
    Ok(slots)
}

// Of each output the limit, from 1 to 6 cells, or none.
fn drawn_limits(seed: u64) -> [Option<u64>; 4] {
    let mut draws = Draws::from_seed(seed);
    let mut limits = NO_LIMITS;
    for limit in &mut limits {
        let drawn = draws.below(9);
        if drawn > 2 {
            *limit = Some(drawn - 2);
        }
    }
    limits
}

// Whether engines of one worker and of two come to what the plain slow fabric comes to over these slots.
fn agree<T: Threads + Sync>(
    rt: &T,
    alloc: Global,
    slots: &[Coming<4>],
    plain: &mut Slow,
) -> Result<bool, NoMemory> {
    plain.run(alloc, slots)?;
    let outcome = plain.outcome();
    let alone = Trial {
        workers: 1,
        limits: plain.limits,
        slots,
        outcome,
    };
    let shared = Trial {
        workers: 2,
        ..alone
    };
    Ok(prioritized(rt, alloc, &alone)? && prioritized(rt, alloc, &shared)?)
}

// Whether they do over slots that are drawn from the seed.
fn agree_over_drawn<T: Threads + Sync>(rt: &T, alloc: Global, seed: u64) -> Result<bool, NoMemory> {
    let slots = drawn_slots(alloc, seed)?;
    let mut plain = Slow::nothing(alloc, drawn_limits(seed))?;
    let agree = agree(rt, alloc, &slots, &mut plain);
    drop(plain);
    agree
}

#[test]
fn drawn_slots_are_as_in_the_plain_slow_fabric(rt: HostRuntime) {
    for seed in 1..17 {
        assert!(rt; agree_over_drawn(&rt, rt.alloc(), seed) == Ok(true));
    }
}
