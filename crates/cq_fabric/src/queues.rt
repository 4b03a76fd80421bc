//! The lists of all inputs, and the buffers of all outputs.
ghost use Rattle.std.specs.Prelude.{◌≡◌, ◌≢◌, ◌==◌, ◌+◌, ◌-◌, ◌^◌, ◌<◌, ◌≤◌, ◌++◌, ℕ, [], All, IfOk, IfSome, IsTrue, Some, drop, length, map, min, replicate, slice_get, slice_index, take};
ghost use Rattle.std.specs.List.{list_all, position_or_len, reduce};
ghost use Rattle.cq_base.specs.declared.cell.Queued.{Queued as OfCell};
ghost use Rattle.cq_base.specs.Cells.{MoreUrgentAhead, with_arrival};
ghost use Rattle.cq_fabric.specs.Terms.{cushion, fronts, rests, cells_of, cells_in, first_key, key_before, list_of, orders_of, Moves, transfers_of, IsMatching, HasTransferred, came_to, list_arrived, CanCrossInPairs, CanFollow, CanHold, IsNewest, CanCross, ComeApart, Comes, FitEach, FitLists, Fits, buffer_room, fabric_of, list_at, list_room, list_with, most_ports, either_by, slacks};

use crate::gone::Gone;
use crate::standing::{all_told, filled_buffers, filled_lists};
use cq_base::{Key, NoMemory, Port, Queued, Room, Sequence, Slot, Transfer};
use cq_ideal::Newcomers;
use cq_list::InputList;
use cq_prefs::{Matching, Offers};
use cq_urgency::OutputBuffer;
use cq_xbar::transfer;
use std::alloc::Global;
use std::marker::Model;

/// The cells that wait at the inputs and at the outputs of a fabric. Contracts see the cells of each list and of
/// each buffer, and how many cells each of them can hold.
#[derive(Drop)]
pub struct Queues {
    lists: Vec<InputList>,
    buffers: Vec<OutputBuffer>,
    offers: Offers,
}

impl Model for Queues {
    ghost use Rattle.std.specs.Prelude.{map};
    ghost use Rattle.cq_list.specs.InputList.{cells_of};
    ghost use Rattle.cq_urgency.specs.OutputBuffer.{cells_in};
    ghost use Rattle.cq_fabric.specs.Queues.{Queues as Held, AreOffered, list_room, buffer_room};

    ghost Value = { Held };

    ghost view = { λ a. record {
      inputs = cells_of a.lists.items;
      buffers = cells_in a.buffers.items;
      from_inputs = map list_room a.lists.items;
      to_outputs = map buffer_room a.buffers.items;
    } };

    ghost invariant = { λ a. AreOffered a.lists.items a.buffers.items a.offers };
}

// The lesser of the least number so far, if there is one, and of one more.
fn lesser(least: Option<u64>, more: u64) -> u64
    ensures { Some result ≡ either_by min least (Some more) }
{
    match least {
        None => more,
        Some(least) => least.min(more),
    }
}

// The cell at a place of a list. It is read off the cells of the list if they could be told.
fn cell_at(list: &InputList, told: &Option<Sequence<Queued>>, place: u64) -> Queued
    requires place { place < length list.now.cells }
    requires told { IfSome told.now (λ cells. cells ≡ list.now.cells) }
    ensures { slice_get list.now.cells place ≡ Some result }
{
    match told {
        Some(cells) => cells.as_slice()[place as usize],
        None => list.at(place),
    }
}

// Whether the first cell of a list for an output is more urgent than one with this key.
fn has_more_urgent(list: &InputList, output: Port, key: Key) -> bool
    ensures { result ≡ key_before (first_key output list.now.cells) (Some key) }
{
    match list.front_for(output) {
        None => false,
        Some(front) => front.key.precedes(key),
    }
}

// The cushion with which a cell goes into a list: the one that it has in the buffer of its output. An empty list has
// one place, so there any will do, and none is looked for.
fn cushion_for(list: &InputList, buffer: &OutputBuffer, queued: Queued) -> u64
    requires { MoreUrgentAhead (cushion queued.key buffer.now.cells) queued list.now.cells }
    ensures ahead { MoreUrgentAhead result queued list.now.cells }
    ensures place { with_arrival result queued list.now.cells
        ≡ with_arrival (cushion queued.key buffer.now.cells) queued list.now.cells }
{
    if list.len() == 0 {
        return 0;
    }
    buffer.cushion(queued.key)
}

// A cell that came goes into the list of its input, with the cushion that it has in the buffer of its output. The
// offers follow: where a more urgent cell for the same output waits in the list already, they stay.
fn insert_one(
    lists: &mut [InputList],
    buffers: &[OutputBuffer],
    offers: &mut Offers,
    input: usize,
    queued: Queued,
)
    requires fits { Fits (cells_in buffers.now) (list_at lists.old input) queued }
    requires comes { Comes lists.old offers.old input queued }
    ensures ports { length lists.new ≡ length lists.old }
    ensures list { list_at lists.new input ≡ list_with (cells_in buffers.now) (Some queued) (list_at lists.old input) }
    ensures others { (i : ℕ) → i ≢ input → list_at lists.new i ≡ list_at lists.old i }
    ensures offers { offers.new ≡ orders_of (cells_of lists.new) }
{
    let output = queued.cell.output;
    let cushion = cushion_for(&lists[input], &buffers[output as usize], queued);
    let behind = has_more_urgent(&lists[input], output, queued.key);
    lists[input].insert(queued, cushion);
    if behind {
        return;
    }
    offers.renew_pair(lists, input as Port, output);
}

// Each cell that came goes into the list of its input.
fn insert_each(
    lists: &mut [InputList],
    buffers: &[OutputBuffer],
    offers: &mut Offers,
    came: &Newcomers,
)
    requires few { length lists.old ≤ most_ports }
    requires fit { FitEach (cells_in buffers.now) came.now lists.old }
    requires come { ComeApart came.now (cells_of lists.old) }
    requires outputs { All (λ list. list.outputs ≡ length lists.old) lists.old }
    requires offers { offers.old ≡ orders_of (cells_of lists.old) }
    ensures ports { length lists.new ≡ length lists.old }
    ensures lists { (i : ℕ) → i < length lists.old →
        list_at lists.new i ≡ list_with (cells_in buffers.now) (came_to came.now i) (list_at lists.old i) }
    ensures offers { offers.new ≡ orders_of (cells_of lists.new) }
{
    'inputs: for input in 0..lists.len() {
        if let Some(queued) = came.at(input) {
            insert_one(lists, buffers, offers, input, queued);
        }
    }
}

// The first cells of the pairs of a matching cross, and are noted. The offers follow.
fn cross_matched(
    matching: &Matching,
    lists: &mut [InputList],
    buffers: &mut [OutputBuffer],
    offers: &mut Offers,
    slot: Slot,
    phase: u8,
    note: &mut Room<Transfer>,
)
    requires pairs { CanCrossInPairs matching.now lists.old buffers.old }
    requires follow { CanFollow lists.old offers.old }
    requires note { length matching.now ≤ note.old.spare }
    ensures transferred { HasTransferred slot phase matching.now lists.old buffers.old lists.new buffers.new
        note.old note.new }
    ensures offers { offers.new ≡ orders_of (cells_of lists.new) }
{
    transfer(matching, lists, buffers, slot, phase, note);
    offers.renew(lists, matching);
}

// No cell, for each of so many ports. The error is want of memory.
#[tactic(auto, using(std::proofs::lemmas::List::replicate_more))]
fn no_cells(alloc: Global, ports: usize) -> Result<Vec<Sequence<Queued>>, NoMemory>
    ensures { IfOk result (λ none. none.items ≡ replicate ports []) }
{
    let mut none = Vec::with_capacity(alloc, ports)?;
    'ports: for _ in 0..ports {
        none.push(Sequence::of(Vec::new(alloc)))?;
    }
    Ok(none)
}

// Whether each of the lists is empty.
fn none_wait(lists: &[InputList]) -> bool
    ensures { result ≡ list_all (λ list. length list.cells == 0) lists.now }
{
    lists.iter().all(|list| list.len() == 0)
}

// Whether each of the buffers is empty.
fn none_crossed(buffers: &[OutputBuffer]) -> bool
    ensures { result ≡ list_all (λ buffer. length buffer.cells == 0) buffers.now }
{
    buffers.iter().all(|buffer| buffer.len() == 0)
}

impl Queues {
    /// No cell waits. The lists and the buffers can hold so many cells. The error is want of memory.
    #[tactic(auto, using(crate::proofs::Offered::new_steps))]
    pub fn new(alloc: Global, from_inputs: &[u64], to_outputs: &[u64]) -> Result<Queues, NoMemory>
        requires few { length from_inputs.now ≤ most_ports }
        requires square { length to_outputs.now ≡ length from_inputs.now }
        ensures inputs { IfOk result (λ q. q.inputs ≡ replicate (length from_inputs.now) []) }
        ensures buffers { IfOk result (λ q. q.buffers ≡ replicate (length from_inputs.now) []) }
        ensures from_inputs { IfOk result (λ q. q.from_inputs ≡ from_inputs.now) }
        ensures to_outputs { IfOk result (λ q. q.to_outputs ≡ to_outputs.now) }
    {
        let none = no_cells(alloc, from_inputs.len())?;
        Queues::holding(alloc, from_inputs, to_outputs, &none, &none)
    }

    /// These cells wait, and the lists and the buffers can hold so many. The error is want of memory.
    pub fn holding(
        alloc: Global,
        from_inputs: &[u64],
        to_outputs: &[u64],
        lists: &[Sequence<Queued>],
        buffers: &[Sequence<Queued>],
    ) -> Result<Queues, NoMemory>
        requires few { length from_inputs.now ≤ most_ports }
        requires square { length to_outputs.now ≡ length from_inputs.now }
        requires lists { length lists.now ≡ length from_inputs.now }
        requires buffers { length buffers.now ≡ length from_inputs.now }
        requires hold { CanHold from_inputs.now to_outputs.now lists.now buffers.now }
        ensures inputs { IfOk result (λ q. q.inputs ≡ lists.now) }
        ensures buffers { IfOk result (λ q. q.buffers ≡ buffers.now) }
        ensures from_inputs { IfOk result (λ q. q.from_inputs ≡ from_inputs.now) }
        ensures to_outputs { IfOk result (λ q. q.to_outputs ≡ to_outputs.now) }
    {
        let waiting = filled_lists(alloc, from_inputs, lists)?;
        let crossed = filled_buffers(alloc, to_outputs, buffers)?;
        let mut offers = Offers::new(alloc, from_inputs.len() as u16)?;
        offers.fill(&waiting);
        Ok(Queues {
            lists: waiting,
            buffers: crossed,
            offers,
        })
    }

    /// The cells of each list, in order. The error is want of memory.
    pub fn listed(&self, alloc: Global) -> Result<Sequence<Sequence<Queued>>, NoMemory>
        ensures { IfOk result (λ lists. lists ≡ self.now.inputs) }
    {
        all_told(alloc, &self.lists, |list| list.cells(alloc))
    }

    /// The cells of each buffer, the most urgent first. The error is want of memory.
    pub fn buffered(&self, alloc: Global) -> Result<Sequence<Sequence<Queued>>, NoMemory>
        ensures { IfOk result (λ buffers. buffers ≡ self.now.buffers) }
    {
        all_told(alloc, &self.buffers, |buffer| buffer.cells(alloc))
    }

    /// The number of inputs, and of outputs.
    #[tactic(auto, using(crate::proofs::Queued::buffer_room_is, crate::proofs::Queued::rooms_fit))]
    pub fn ports(&self) -> u16
        ensures value { result ≡ length self.now.inputs }
        ensures buffers { length self.now.buffers ≡ length self.now.inputs }
        ensures few { length self.now.inputs ≤ most_ports }
        ensures within { (j : ℕ) → length (list_of self.now.buffers j) ≤ slice_index self.now.to_outputs j }
        ensures rooms { (j : ℕ) → slice_index self.now.to_outputs j < 2 ^ 64 }
    {
        self.lists.len() as u16
    }

    /// How many cells wait at an input.
    pub fn len_of(&self, input: usize) -> u64
        requires { input < length self.now.inputs }
        ensures { result ≡ length (list_of self.now.inputs input) }
    {
        self.lists[input].len()
    }

    /// The slack of the cell that arrived in its slot at an input. Its key finds it there, however many cells wait.
    pub fn slack_of(&self, input: usize, queued: &Queued) -> u64
        requires input { input < length self.now.inputs }
        requires output { queued.now.cell.output < length self.now.inputs }
        requires newest { IsNewest queued.now (list_of self.now.inputs input) }
        ensures { result ≡ cushion queued.now.key (list_of self.now.buffers queued.now.cell.output)
            - position_or_len (λ x. x.key.slot == queued.now.key.slot) (list_of self.now.inputs input) }
    {
        let list = &self.lists[input];
        // Its contract tells that each cell is for one of the outputs, and that those for one stand in order of key.
        let _waiting = list.outputs();
        let place = list.place_of_key(queued.cell.output, queued.key);
        self.buffers[queued.cell.output as usize]
            .cushion(queued.key)
            .saturating_sub(place)
    }

    // The slack of the cell that stands at a place in the list of an input, of which these are the cells if they could
    // be told.
    fn slack_at(&self, input: usize, told: &Option<Sequence<Queued>>, place: u64) -> u64
        requires input { input < length self.now.inputs }
        requires told { IfSome told.now (λ cells. cells ≡ list_of self.now.inputs input) }
        requires place { place < length (list_of self.now.inputs input) }
        ensures { (c : OfCell) → slice_get (list_of self.now.inputs input) place ≡ Some c →
            result ≡ cushion c.key (list_of self.now.buffers c.cell.output) - place }
    {
        let list = &self.lists[input];
        // Its contract tells that each cell is for one of the outputs.
        let _waiting = list.outputs();
        let queued = cell_at(list, told, place);
        self.buffers[queued.cell.output as usize]
            .cushion(queued.key)
            .saturating_sub(place)
    }

    /// The least slack of the cells that wait at an input, if one waits. They are told at once where there is memory
    /// for that, and else each is looked for.
    pub fn least_slack(&self, alloc: Global, input: usize) -> Option<u64>
        requires { input < length self.now.inputs }
        ensures { result ≡ reduce min (slacks (fabric_of self.now []) input) }
    {
        let told = self.lists[input].cells(alloc).ok();
        let mut least = None;
        'places: for place in 0..self.len_of(input) {
            least = Some(lesser(least, self.slack_at(input, &told, place)));
        }
        least
    }

    /// The cells arrive, each at its input.
    pub fn arrive(&mut self, came: &Newcomers)
        requires fit { FitLists came.now self.old }
        requires come { ComeApart came.now self.old.inputs }
        ensures ports { length self.new.inputs ≡ length self.old.inputs }
        ensures lists { (i : ℕ) → list_of self.new.inputs i
            ≡ list_arrived (fabric_of self.old []) (came_to came.now i) (list_of self.old.inputs i) }
        ensures buffers { self.new.buffers ≡ self.old.buffers }
        ensures from_inputs { self.new.from_inputs ≡ self.old.from_inputs }
        ensures to_outputs { self.new.to_outputs ≡ self.old.to_outputs }
    {
        insert_each(&mut self.lists, &self.buffers, &mut self.offers, came);
    }

    /// The list of each input.
    pub fn lists(&self) -> &[InputList]
        ensures cells { cells_of result.now ≡ self.now.inputs }
        ensures few { length result.now ≤ most_ports }
        ensures outputs { All (λ list. list.outputs ≡ length result.now) result.now }
    {
        &self.lists
    }

    /// What the inputs offer to the outputs. It follows the lists, so that no list is read for it.
    pub fn offers(&self) -> &Offers
        ensures { result.now ≡ orders_of self.now.inputs }
    {
        &self.offers
    }

    /// The first cells of the pairs of a matching cross, and are noted with the slot and the phase, in order of
    /// input. It takes no memory.
    pub fn cross(&mut self, matching: &Matching, slot: Slot, phase: u8, note: &mut Room<Transfer>)
        requires matching { IsMatching (orders_of self.old.inputs) matching.now }
        requires cells { CanCross self.old }
        requires note { length self.old.inputs ≤ note.old.spare }
        ensures moves { Moves matching.now self.old.inputs self.old.buffers self.new.inputs self.new.buffers }
        ensures from_inputs { self.new.from_inputs ≡ self.old.from_inputs }
        ensures to_outputs { self.new.to_outputs ≡ self.old.to_outputs }
        ensures note { note.new.items ≡ note.old.items ++ transfers_of matching.now self.old.inputs slot phase }
        ensures note_room { note.new.spare + length (transfers_of matching.now self.old.inputs slot phase)
            ≡ note.old.spare }
    {
        cross_matched(
            matching,
            &mut self.lists,
            &mut self.buffers,
            &mut self.offers,
            slot,
            phase,
            note,
        );
    }

    /// The first cell of each buffer leaves it, and comes to `gone` at the place of its output. The places behind
    /// those of the outputs stay as they were.
    #[tactic(auto, using(crate::proofs::Queued::depart_steps))]
    pub fn depart(&mut self, gone: &mut Gone)
        ensures gone { take (length self.old.inputs) gone.new ≡ fronts self.old.buffers }
        ensures others { drop (length self.old.inputs) gone.new ≡ drop (length self.old.inputs) gone.old }
        ensures buffers { self.new.buffers ≡ rests self.old.buffers }
        ensures inputs { self.new.inputs ≡ self.old.inputs }
        ensures from_inputs { self.new.from_inputs ≡ self.old.from_inputs }
        ensures to_outputs { self.new.to_outputs ≡ self.old.to_outputs }
    {
        gone.take_from(&mut self.buffers);
    }

    /// Whether no cell waits in any list or buffer.
    pub fn are_empty(&self) -> bool
        ensures lists { IsTrue result → All (λ cells. cells ≡ []) self.now.inputs }
        ensures buffers { IsTrue result → All (λ cells. cells ≡ []) self.now.buffers }
        ensures empty { All (λ cells. cells ≡ []) self.now.inputs → All (λ cells. cells ≡ []) self.now.buffers →
            IsTrue result }
    {
        none_wait(&self.lists) && none_crossed(&self.buffers)
    }
}
