//! Lists and buffers in which cells wait from the start, and the cells that wait in them.
ghost use Rattle.std.specs.Prelude.{◌≡◌, ◌<◌, ◌≤◌, ℕ, IfOk, Ok, length, map, replicate, slice_index};
ghost use Rattle.std.specs.Fn.{FnReturnsAt};
ghost use Rattle.cq_fabric.specs.Terms.{CanStand, CanWait, buffer_room, cells_in, cells_of, list_of, list_room, most_ports, AllAreTold};

use cq_base::{NoMemory, Queued, Sequence};
use cq_list::InputList;
use cq_urgency::OutputBuffer;
use std::alloc::Global;

/// A list for so many outputs, with room for so many cells, in which these wait. Each comes behind the others. The
/// error is want of memory.
#[tactic(auto, using(std::proofs::lemmas::List::take_all))]
pub fn filled_list(
    alloc: Global,
    outputs: u16,
    room: u64,
    cells: &[Queued],
) -> Result<InputList, NoMemory>
    requires few { outputs ≤ most_ports }
    requires wait { CanWait outputs room cells.now }
    ensures cells { IfOk result (λ list. list.cells ≡ cells.now) }
    ensures room { IfOk result (λ list. list_room list ≡ room) }
    ensures outputs { IfOk result (λ list. list.outputs ≡ outputs) }
{
    let mut list = InputList::new(alloc, outputs, room)?;
    'places: for (at, queued) in cells.iter().enumerate() {
        list.insert(*queued, at as u64);
    }
    Ok(list)
}

/// A buffer with room for so many cells, in which these wait. The error is want of memory.
#[tactic(auto, using(crate::proofs::Filling::fill_steps))]
pub fn filled_buffer(alloc: Global, room: u64, cells: &[Queued]) -> Result<OutputBuffer, NoMemory>
    requires { CanStand room cells.now }
    ensures cells { IfOk result (λ buffer. buffer.cells ≡ cells.now) }
    ensures room { IfOk result (λ buffer. buffer_room buffer ≡ room) }
{
    let mut buffer = OutputBuffer::new(alloc, room)?;
    'cells: for queued in cells {
        buffer.put(*queued);
    }
    Ok(buffer)
}

/// A list for each of these rooms, over as many outputs, in which the cells beside it wait. The error is want of
/// memory.
#[tactic(auto, using(crate::proofs::Filling::filled_steps))]
pub fn filled_lists(
    alloc: Global,
    rooms: &[u64],
    cells: &[Sequence<Queued>],
) -> Result<Vec<InputList>, NoMemory>
    requires few { length rooms.now ≤ most_ports }
    requires as_many { length cells.now ≡ length rooms.now }
    requires wait { (i : ℕ) → i < length cells.now →
        CanWait (length cells.now) (slice_index rooms.now i) (list_of cells.now i) }
    ensures cells { IfOk result (λ lists. cells_of lists.items ≡ cells.now) }
    ensures rooms { IfOk result (λ lists. map list_room lists.items ≡ rooms.now) }
    ensures outputs { IfOk result (λ lists. map (λ list. list.outputs) lists.items
        ≡ replicate (length rooms.now) (length rooms.now)) }
{
    let mut lists = Vec::with_capacity(alloc, rooms.len())?;
    'places: for (at, room) in rooms.iter().enumerate() {
        let waiting = cells[at].as_slice();
        lists.push(filled_list(alloc, rooms.len() as u16, *room, waiting)?)?;
    }
    Ok(lists)
}

/// A buffer for each of these rooms, in which the cells beside it wait. The error is want of memory.
#[tactic(auto, using(crate::proofs::Filling::filled_steps))]
pub fn filled_buffers(
    alloc: Global,
    rooms: &[u64],
    cells: &[Sequence<Queued>],
) -> Result<Vec<OutputBuffer>, NoMemory>
    requires as_many { length cells.now ≡ length rooms.now }
    requires stand { (j : ℕ) → j < length cells.now →
        CanStand (slice_index rooms.now j) (list_of cells.now j) }
    ensures cells { IfOk result (λ buffers. cells_in buffers.items ≡ cells.now) }
    ensures rooms { IfOk result (λ buffers. map buffer_room buffers.items ≡ rooms.now) }
{
    let mut buffers = Vec::with_capacity(alloc, rooms.len())?;
    'places: for (at, room) in rooms.iter().enumerate() {
        let waiting = cells[at].as_slice();
        buffers.push(filled_buffer(alloc, *room, waiting)?)?;
    }
    Ok(buffers)
}

/// What is told of each of some items, in order. The error is want of memory.
#[tactic(auto, using(std::proofs::lemmas::List::take_all))]
pub fn all_told<T, F: Fn(&T) -> Result<Sequence<Queued>, NoMemory>>(
    alloc: Global,
    items: &[T],
    tell: F,
) -> Result<Sequence<Sequence<Queued>>, NoMemory>
    requires { F.IsAlwaysCallable tell }
    ensures { IfOk result (AllAreTold (λ x cells. FnReturnsAt F.Fn tell x (Ok cells)) items.now) }
{
    let mut all = Vec::with_capacity(alloc, items.len())?;
    'items: for at in 0..items.len() {
        let cells = tell(&items[at])?;
        all.push(cells)?;
    }
    Ok(Sequence::of(all))
}
