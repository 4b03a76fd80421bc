//! What a sound state comes to.
ghost use Rattle.std.specs.Prelude.{◌≡◌, ◌+◌, ◌==◌, ◌<◌, ◌≤◌, ◌^◌, AllPairs, IfOk, None, filter, length, map, replicate};
ghost use Rattle.std.specs.List.{AllByRecursion, enumerate_from, range_with_len};
ghost use Rattle.cq_resume.specs.Terms.{slots_of, IsTally, output_told, taken_of, BuffersStand, IsFound, IsNameBefore, IsNoLaterInput, Switch, CanTakeUp, departed, figures_at_input, longer, with_departure, most_ports};

use crate::found::{Found, Gone, Name, names_at};
use crate::packets::Tally;
use crate::slack::{buffer_at, list_at};
use cq_base::{
    Departure, Figures, InputFigures, NoMemory, OutputFigures, Port, Queued, Sequence, Slot,
    Transfer,
};
use cq_laws::Frozen;
use cq_state::{Seen, State};
use std::alloc::{AllocError, Global};

/// A stopped run that can go on.
#[derive(Drop)]
pub struct Taken {
    /// The fabric, with what was counted.
    pub frozen: Frozen,
    /// The departures so far, in order of slot, then output.
    pub sent: Sequence<Departure>,
    /// The transfers so far, in order of slot, then phase, then input.
    pub note: Sequence<Transfer>,
}

// The list of each input, and the buffer of each output.
fn queues_of(
    alloc: Global,
    listed: &[Queued],
    buffered: &[Queued],
    ports: u16,
) -> Result<(Sequence<Sequence<Queued>>, Sequence<Sequence<Queued>>), NoMemory>
    requires listed { AllPairs IsNoLaterInput listed.now }
    requires buffered { BuffersStand buffered.now }
    ensures lists { IfOk result (λ queues. queues.0
        ≡ map (λ i. filter (λ q. q.key.input == i) listed.now) (range_with_len 0 ports)) }
    ensures buffers { IfOk result (λ queues. queues.1
        ≡ map (λ j. filter (λ q. q.cell.output == j) buffered.now) (range_with_len 0 ports)) }
{
    let mut lists = Vec::new(alloc);
    let mut buffers = Vec::new(alloc);
    'ports: for port in 0..ports {
        let list = Sequence::copy_of(alloc, list_at(listed, port))?;
        let buffer = Sequence::copy_of(alloc, buffer_at(buffered, port))?;
        lists.push(list)?;
        buffers.push(buffer)?;
    }
    Ok((Sequence::of(lists), Sequence::of(buffers)))
}

// The departure of a cell that was sent.
fn departed(gone: Gone) -> Departure
    ensures { result ≡ departed gone }
{
    Departure {
        slot: gone.slot,
        output: gone.queued.cell.output,
        queued: gone.queued,
    }
}

// What was found of the cells that were sent. Nothing else is kept of what was found.
fn sent_of(found: Found) -> Vec<Gone>
    ensures { result.items ≡ found.sent.items }
{
    found.sent
}

// The departures of cells that were sent.
fn departures_of(alloc: Global, sent: Vec<Gone>) -> Result<Vec<Departure>, AllocError>
    ensures { IfOk result (λ departures. departures.items ≡ map departed sent.items) }
{
    sent.iter().map(|gone| departed(*gone)).collect(alloc)
}

// The numbers of the rank states, and the transfers. No line of a cell is kept.
fn beside_cells(state: State) -> (Sequence<Sequence<u128>>, Sequence<Transfer>)
    ensures ranks { result.0 ≡ state.ranks }
    ensures moved { result.1 ≡ state.moved }
{
    (state.ranks, state.moved)
}

// What was seen of an input: the cells that are named, and what its line tells.
fn figures_at_input(names: &[Name], input: usize, seen: &Seen) -> InputFigures
    requires few { input < most_ports }
    requires ordered { AllPairs IsNameBefore names.now }
    ensures { result ≡ figures_at_input names.now input seen.now }
{
    InputFigures {
        cells: names_at(names, input as Port).len() as u64,
        longest: seen.longest,
        slack: seen.slack,
    }
}

// What was seen of each input.
#[tactic(auto, using(std::proofs::lemmas::Iterator::items_from_collect, crate::proofs::Cut::serving_steps))]
fn inputs_of(alloc: Global, names: &[Name], seen: &[Seen]) -> Result<Vec<InputFigures>, AllocError>
    requires few { length seen.now ≤ most_ports }
    requires ordered { AllPairs IsNameBefore names.now }
    ensures { IfOk result (λ inputs. inputs.items ≡ map (λ at. figures_at_input names.now at.0 at.1)
        (enumerate_from 0 seen.now)) }
{
    seen.iter()
        .enumerate()
        .map(|(input, seen)| figures_at_input(names, input, seen))
        .collect(alloc)
}

// The greater of the waits so far, if there are any, and this one.
fn longer(wait: Option<u64>, now: u64) -> u64
    ensures { result ≡ longer wait now }
{
    match wait {
        Some(wait) => wait.max(now),
        None => now,
    }
}

// What was seen of an output, with a departure of its own more.
fn with_departure(figures: OutputFigures, departure: Departure) -> OutputFigures
    requires { figures.cells + 1 < 2 ^ 64 }
    ensures { result ≡ with_departure departure.output figures departure }
{
    let wait = departure.slot.saturating_sub(departure.queued.key.slot);
    OutputFigures {
        cells: figures.cells + 1,
        wait: Some(longer(figures.wait, wait)),
    }
}

// What was seen of each output before it sent a cell.
fn nothing_sent(alloc: Global, ports: u16) -> Result<Vec<OutputFigures>, NoMemory>
    ensures { IfOk result (λ outputs. outputs.items ≡ replicate ports (record { cells = 0; wait = None })) }
{
    let nothing = OutputFigures {
        cells: 0,
        wait: None,
    };
    Ok(vec![in alloc; nothing; ports as usize]?)
}

// What was seen of each output.
#[tactic(auto, using(crate::proofs::Cut::sent_steps))]
fn outputs_of(
    alloc: Global,
    sent: &[Departure],
    ports: u16,
) -> Result<Sequence<OutputFigures>, NoMemory>
    requires { AllByRecursion (λ d. d.output < ports) sent.now }
    ensures { IfOk result (λ outputs. outputs ≡ map (output_told sent.now) (range_with_len 0 ports)) }
{
    let mut outputs = nothing_sent(alloc, ports)?;
    'sent: for departure in sent {
        let output = departure.output as usize;
        outputs[output] = with_departure(outputs[output], *departure);
    }
    Ok(Sequence::of(outputs))
}

// How many slots there are up to the last one in which a cell departed, that one included; 0 where none did.
#[tactic(auto, using(crate::proofs::Cut::slots_last, cq_base::proofs::Pooled::each_pair))]
fn slots_of(sent: &[Departure]) -> Slot
    requires rising { AllPairs (λ d e. d.slot ≤ e.slot) sent.now }
    requires low { AllByRecursion (λ d. d.slot < 2 ^ 63) sent.now }
    ensures { result ≡ slots_of sent.now }
{
    match sent.last() {
        Some(last) => last.slot + 1,
        None => 0,
    }
}

// Where the cells that were found are: those that wait, in their queues, and those that left, with how many slots they
// took, and what was seen of each output.
#[derive(Drop)]
struct Placed {
    lists: Sequence<Sequence<Queued>>,
    buffers: Sequence<Sequence<Queued>>,
    sent: Sequence<Departure>,
    slots: Slot,
    outputs: Sequence<OutputFigures>,
}

// Where these cells are. What was found goes before the departures come.
fn places_of(alloc: Global, found: Found, ports: u16) -> Result<Placed, NoMemory>
    requires listed { AllPairs IsNoLaterInput found.listed.items }
    requires buffered { BuffersStand found.buffered.items }
    requires rising { AllPairs (λ d e. d.slot ≤ e.slot) (map departed found.sent.items) }
    requires low { AllByRecursion (λ d. d.slot < 2 ^ 63) (map departed found.sent.items) }
    requires outputs { AllByRecursion (λ d. d.output < ports) (map departed found.sent.items) }
    ensures lists { IfOk result (λ cells. cells.lists
        ≡ map (λ i. filter (λ q. q.key.input == i) found.listed.items) (range_with_len 0 ports)) }
    ensures buffers { IfOk result (λ cells. cells.buffers
        ≡ map (λ j. filter (λ q. q.cell.output == j) found.buffered.items) (range_with_len 0 ports)) }
    ensures sent { IfOk result (λ cells. cells.sent ≡ map departed found.sent.items) }
    ensures slots { IfOk result (λ cells. cells.slots ≡ slots_of (map departed found.sent.items)) }
    ensures outputs { IfOk result (λ cells. cells.outputs
        ≡ map (output_told (map departed found.sent.items)) (range_with_len 0 ports)) }
{
    let queues = queues_of(alloc, &found.listed, &found.buffered, ports);
    let sent = sent_of(found);
    let (lists, buffers) = queues?;
    let sent = departures_of(alloc, sent)?;
    let slots = slots_of(&sent);
    let outputs = outputs_of(alloc, &sent, ports)?;
    Ok(Placed {
        lists,
        buffers,
        sent: Sequence::of(sent),
        slots,
        outputs,
    })
}

/// What a state comes to that was found to be sound. The error is want of memory.
// The lines of the state go before the lists come.
pub fn take_up(alloc: Global, state: State, found: Found, tally: Tally) -> Result<Taken, NoMemory>
    requires { CanTakeUp state found }
    ensures { (w : Switch) → IsFound w.came state found → IsTally w state tally
        → IfOk result (λ taken. taken ≡ taken_of w state) }
{
    let head = state.head;
    let inputs = inputs_of(alloc, &found.names, state.inputs.as_slice());
    let (ranks, moved) = beside_cells(state);
    let placed = places_of(alloc, found, head.ports);
    let inputs = Sequence::of(inputs?);
    let placed = placed?;
    let figures = Figures {
        slots: placed.slots,
        proposals: head.proposals,
        most: head.most,
        inputs,
        outputs: placed.outputs,
    };
    let frozen = Frozen {
        next: head.next,
        figures,
        refused: tally.refused,
        marks: tally.marks,
        ranks,
        lists: placed.lists,
        buffers: placed.buffers,
    };
    Ok(Taken {
        frozen,
        sent: placed.sent,
        note: moved,
    })
}
