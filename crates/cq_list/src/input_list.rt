//! The list of cells that wait at one input.
ghost use Rattle.std.specs.Prelude.{◌≡◌, ℕ, ◌+◌, ◌<◌, ◌≤◌, ◌&&◌, ◌++◌, List, [], Some, IfOk, OnOk, length, position, slice_get, is_some, not, if◌then◌else◌};
ghost use Rattle.std.specs.List.{position_or_len};
ghost use Rattle.cq_base.specs.declared.cell.Queued.{Queued};
ghost use Rattle.cq_base.specs.Key.{is_before};
ghost use Rattle.cq_base.specs.Cells.{HasOtherKey, MoreUrgentAhead, is_for, has_id, first_for, without_first, with_arrival};
ghost use Rattle.cq_base.specs.Limits.{most_ports};
ghost use Rattle.cq_list.specs.Split.{is_output, merged, place_of_nth, count_of};
ghost use Rattle.cq_list.specs.Pool.{queue_of};
ghost use Rattle.cq_list.specs.InputList.{AreWaiting};

use crate::places::Places;
use crate::pool::{Heads, Pool};
use cq_base::{CellId, Key, NoMemory, Port, Queued, Sequence};
use std::alloc::Global;
use std::marker::Model;

/// The cells that wait at an input, the most wanted first. Contracts see the cells, the number of outputs, and
/// how many more cells there is room for.
///
/// The cells for one output stand in the order of their keys, and no two cells have the same key.
#[derive(Drop)]
pub struct InputList {
    places: Places,
    pool: Pool,
    outputs: u16,
}

impl Model for InputList {
    ghost use Rattle.cq_list.specs.InputList.{Waiting, StandFor, cells_in};

    ghost Value = { Waiting };

    ghost view = { λ l. record { cells = cells_in l.places l.pool; outputs = l.outputs; spare = l.pool.spare } };

    ghost invariant = { λ l. StandFor l.outputs l.places l.pool (cells_in l.places l.pool) };
}

// The place of an output that has so many of its places ahead, which is the end where it has no more of them.
#[tactic(auto, using(crate::proofs::BlockWalk::nth_end))]
fn place_behind(places: &Places, output: Port, ahead: usize, all: usize) -> usize
    requires all { all ≡ count_of output places.now.outputs }
    requires some { ahead ≤ all }
    ensures { result ≡ place_of_nth (is_output output) ahead places.now.outputs }
{
    if ahead == all {
        return places.len();
    }
    places.place_of(output, ahead, all)
}

// Tells the cells at these places, behind those that are told. What is told, and what is still to be told at any places
// that are left, stay the same cells. The error is want of memory.
fn tell<'a>(cells: &mut Vec<Queued>, heads: &mut Heads<'a>, places: &[Port]) -> Result<(), NoMemory>
    ensures { OnOk result ((left : List ℕ) → cells.new.items ++ merged left (queue_of heads.new)
        ≡ cells.old.items ++ merged (places.now ++ left) (queue_of heads.old)) }
{
    'places: for output in places {
        if let Some(queued) = heads.next(*output) {
            cells.push(queued)?;
        }
    }
    Ok(())
}

impl InputList {
    /// No cell waits, and there is room for so many cells. The error is want of memory.
    #[tactic(auto, using(crate::proofs::Queues::same_at))]
    pub fn new(alloc: Global, outputs: u16, room: u64) -> Result<InputList, NoMemory>
        requires { outputs ≤ most_ports }
        ensures cells { IfOk result (λ list. list.cells ≡ []) }
        ensures outputs { IfOk result (λ list. list.outputs ≡ outputs) }
        ensures spare { IfOk result (λ list. list.spare ≡ room) }
    {
        Ok(InputList {
            places: Places::new(alloc, room)?,
            pool: Pool::new(alloc, outputs, room)?,
            outputs,
        })
    }

    /// A cell arrives. Its cushion is the number of more urgent cells that wait in the buffer of its output. Three
    /// places bound where it goes in, and it takes the least: its cushion, that of the first less urgent cell for
    /// its output, and the end. The other cells keep their order. It takes room for one cell and no memory.
    #[tactic(auto, using(cq_base::proofs::Lists::first_inside))]
    pub fn insert(&mut self, queued: Queued, cushion: u64)
        requires spare { 0 < self.old.spare }
        requires in_range { queued.cell.output < self.old.outputs }
        requires other_key { HasOtherKey queued self.old.cells }
        requires ahead { MoreUrgentAhead cushion queued self.old.cells }
        ensures cells { self.new.cells ≡ with_arrival cushion queued self.old.cells }
        ensures spare { self.new.spare + 1 ≡ self.old.spare }
        ensures outputs { self.new.outputs ≡ self.old.outputs }
    {
        let output = queued.cell.output;
        let all = self.pool.len_of(output);
        let ahead = self.pool.put(queued);
        let later = place_behind(&self.places, output, ahead, all);
        let place = (cushion as usize).min(later.min(self.places.len()));
        self.places.insert(place, output);
    }

    /// The first cell for an output, or None where none waits for it.
    #[tactic(auto, using(crate::proofs::Kept::first_is))]
    pub fn front_for(&self, output: Port) -> Option<Queued>
        ensures { result ≡ first_for output self.now.cells }
    {
        self.pool.first(output)
    }

    /// Takes the first cell for an output out, which gives its room back. It is None where none waits for it,
    /// and then the list is as before.
    #[tactic(auto, using(crate::proofs::Kept::first_is))]
    pub fn take(&mut self, output: Port) -> Option<Queued>
        ensures first { result ≡ first_for output self.old.cells }
        ensures cells { self.new.cells ≡ without_first output self.old.cells }
        ensures spare { self.new.spare ≡ self.old.spare + (if is_some result then 1 else 0) }
        ensures outputs { self.new.outputs ≡ self.old.outputs }
    {
        match self.pool.first(output) {
            None => None,
            Some(_) => {
                self.places.remove_first(output, self.pool.len_of(output));
                Some(self.pool.take(output))
            }
        }
    }

    /// The place of the first cell for an output, or None where none waits for it.
    #[tactic(auto, using(crate::proofs::Kept::first_steps))]
    pub fn place_for(&self, output: Port) -> Option<u64>
        ensures { result ≡ position (is_for output) self.now.cells }
    {
        match self.pool.first(output) {
            None => None,
            Some(_) => {
                let all = self.pool.len_of(output);
                Some(self.places.place_of(output, 0, all) as u64)
            }
        }
    }

    /// How many cells stand ahead of the cell with this id, or None where no cell has it. Where several have
    /// it, this is the place of the first.
    #[tactic(auto, using(crate::proofs::Least::least_steps))]
    pub fn thread_of(&self, id: CellId) -> Option<u64>
        ensures { result ≡ position (has_id id) self.now.cells }
    {
        let mut place = self.places.len();
        'outputs: for output in 0..self.outputs {
            place = place.min(self.place_of_id(output, id));
        }
        if place == self.places.len() {
            return None;
        }
        Some(place as u64)
    }

    // The place of the first cell for an output that has this id, or the end.
    #[tactic(auto, using(cq_base::proofs::Lists::first_inside))]
    fn place_of_id(&self, output: Port, id: CellId) -> usize
        requires { output < self.now.outputs }
        ensures { result ≡ position_or_len (λ x. is_for output x && has_id id x) self.now.cells }
    {
        let ahead = self.pool.ahead_of_id(output, id);
        place_behind(&self.places, output, ahead, self.pool.len_of(output))
    }

    /// The place of the first cell for an output that is no more urgent than this key, or the end where there is none.
    /// So it is the place of the cell that has the key, where a cell for the output has it.
    #[tactic(auto, using(cq_base::proofs::Lists::first_inside))]
    pub fn place_of_key(&self, output: Port, key: Key) -> u64
        requires { output < self.now.outputs }
        ensures { result ≡ position_or_len (λ x. is_for output x && not (is_before x.key key)) self.now.cells }
    {
        let ahead = self.pool.ahead_of_key(output, key);
        place_behind(&self.places, output, ahead, self.pool.len_of(output)) as u64
    }

    /// How many cells wait.
    pub fn len(&self) -> u64
        ensures len { result ≡ length self.now.cells }
        ensures waiting { AreWaiting self.now.outputs self.now.cells }
    {
        self.places.len() as u64
    }

    /// How many outputs there are: each cell is for one of them.
    pub fn outputs(&self) -> u16
        ensures outputs { result ≡ self.now.outputs }
        ensures waiting { AreWaiting self.now.outputs self.now.cells }
    {
        self.outputs
    }

    /// The cell at a place, counted from 0.
    pub fn at(&self, place: u64) -> Queued
        requires { place < length self.now.cells }
        ensures { slice_get self.now.cells place ≡ Some result }
    {
        let output = self.places.at(place as usize);
        let ahead = self.places.count_ahead(output, place as usize);
        self.pool.at(output, ahead)
    }

    /// The cells, in order, each looked at once. The error is want of memory.
    pub fn cells(&self, alloc: Global) -> Result<Sequence<Queued>, NoMemory>
        ensures { IfOk result (λ cells. cells ≡ self.now.cells) }
    {
        let mut heads = self.pool.heads(alloc)?;
        let mut cells = Vec::with_capacity(alloc, self.places.len())?;
        let (first, others) = self.places.blocks();
        tell(&mut cells, &mut heads, first.outputs())?;
        'each: for block in others.iter() {
            tell(&mut cells, &mut heads, block.outputs())?;
        }
        Ok(Sequence::of(cells))
    }
}
