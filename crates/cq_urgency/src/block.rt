//! A few cells that wait next to each other.
ghost use Rattle.std.specs.Prelude.{◌≡◌, ◌+◌, ◌-◌, ◌<◌, ◌≤◌, [], ◌∷◌, Some, length, take, drop, insert, slice_get};
ghost use Rattle.cq_base.specs.Cells.{IsRising, cushion};
ghost use Rattle.cq_urgency.specs.Blocks.{IsPiece, half_cells, most_cells};

use cq_base::{Key, Queued};
use std::marker::Model;

/// The most cells of a block.
pub const MOST_CELLS: usize = 64;

/// The cells of each half of a full block.
pub const HALF_CELLS: usize = MOST_CELLS / 2;

/// At most 64 cells in order. Contracts see the cells.
///
/// They stand in one piece of the array, which need not begin at its start: the first cell is taken out by moving the
/// head, and no cell is moved.
#[derive(Drop)]
pub struct Block {
    cells: [Queued; MOST_CELLS],
    head: usize,
    len: usize,
}

impl Model for Block {
    ghost use Rattle.std.specs.Prelude.{List, take, drop};
    ghost use Rattle.cq_base.specs.declared.cell.Queued.{Queued};
    ghost use Rattle.cq_urgency.specs.Blocks.{IsPiece};

    ghost Value = { List Queued };

    ghost view = { λ b. take b.len (drop b.head b.cells) };

    ghost invariant = { λ b. IsPiece b.cells b.head b.len };
}

// A cell comes first and the others move one place on, over the last one.
#[tactic(auto, using(crate::proofs::Pieces::turned_on))]
fn push_on(cells: &mut [Queued], queued: Queued)
    requires { 0 < length cells.old }
    ensures { cells.new ≡ queued ∷ take (length cells.old - 1) cells.old }
{
    cells.rotate_right(1);
    cells[0] = queued;
}

// The cells from a place on move to the front of the array.
#[tactic(auto, using(crate::proofs::Pieces::piece_steps))]
fn move_front(cells: &mut [Queued; MOST_CELLS], head: usize)
    requires inside { head ≤ most_cells }
    requires each { length cells.old ≡ most_cells }
    ensures each { length cells.new ≡ most_cells }
    ensures front { take (most_cells - head) cells.new ≡ drop head cells.old }
{
    cells.copy_within(head..MOST_CELLS, 0);
}

// A cell goes into the piece of so many cells from the head on, and the answer is where the piece begins now. The
// cells behind it move. Where the array ends behind the piece, all of it moves to the front first, once for all cells
// that find room behind it then.
#[tactic(auto, using(crate::proofs::Pieces::piece_steps))]
fn put_inside(
    cells: &mut [Queued; MOST_CELLS],
    head: usize,
    len: usize,
    place: usize,
    queued: Queued,
) -> usize
    requires inside { place ≤ len }
    requires piece { IsPiece cells.old head len }
    requires room { len < most_cells }
    ensures cells { take (len + 1) (drop result cells.new) ≡ insert (take len (drop head cells.old)) place queued }
    ensures piece { IsPiece cells.new result (len + 1) }
{
    let end = head + len;
    if end < MOST_CELLS {
        push_on(&mut cells[head + place..end + 1], queued);
        return head;
    }
    move_front(cells, head);
    push_on(&mut cells[place..len + 1], queued);
    0
}

/// How many cells have a lesser key. They stand before all others, so halving finds where they end.
pub fn count_before(cells: &[Queued], key: Key) -> usize
    requires { IsRising cells.now }
    ensures { result ≡ cushion key cells.now }
{
    cells.partition_point(|waiting| waiting.key < key)
}

impl Block {
    /// One cell.
    pub fn of(queued: Queued) -> Block
        ensures { result ≡ queued ∷ [] }
    {
        Block {
            cells: [queued; MOST_CELLS],
            head: 0,
            len: 1,
        }
    }

    /// How many cells there are.
    pub fn len(&self) -> usize
        ensures len { result ≡ length self.now }
        ensures fits { result ≤ most_cells }
    {
        self.len
    }

    /// The cell at a place.
    pub fn at(&self, place: usize) -> Queued
        requires { place < length self.now }
        ensures { slice_get self.now place ≡ Some result }
    {
        self.cells[self.head + place]
    }

    /// The cells, in order.
    pub fn cells(&self) -> &[Queued]
        ensures { result.now ≡ self.now }
    {
        &self.cells[self.head..self.head + self.len]
    }

    /// How many of the cells have a lesser key.
    pub fn cushion(&self, key: Key) -> usize
        requires { IsRising self.now }
        ensures { result ≡ cushion key self.now }
    {
        count_before(self.cells(), key)
    }

    /// Puts a cell in.
    pub fn insert(&mut self, place: usize, queued: Queued)
        requires inside { place ≤ length self.old }
        requires room { length self.old < most_cells }
        ensures { self.new ≡ insert self.old place queued }
    {
        self.head = put_inside(&mut self.cells, self.head, self.len, place, queued);
        self.len += 1;
    }

    /// Takes the first cell out. No cell moves.
    #[tactic(auto, using(crate::proofs::Pieces::length_piece, crate::proofs::Pieces::behind))]
    pub fn pop(&mut self) -> Queued
        requires { 0 < length self.old }
        ensures first { slice_get self.old 0 ≡ Some result }
        ensures rest { self.new ≡ drop 1 self.old }
    {
        let queued = self.cells[self.head];
        self.head += 1;
        self.len -= 1;
        queued
    }

    /// This cell alone, in the place of those that it had.
    pub fn restart(&mut self, queued: Queued)
        ensures { self.new ≡ queued ∷ [] }
    {
        self.cells[0] = queued;
        self.head = 0;
        self.len = 1;
    }

    /// Takes the second half of a full block over from it, in place of the cells that this one had.
    #[tactic(auto, using(crate::proofs::Pieces::half_steps))]
    pub fn take_half(&mut self, from: &mut Block)
        requires { length from.old ≡ most_cells }
        ensures half { self.new ≡ drop half_cells from.old }
        ensures left { from.new ≡ take half_cells from.old }
    {
        self.cells[..HALF_CELLS].copy_from_slice(&from.cells()[HALF_CELLS..]);
        self.head = 0;
        self.len = HALF_CELLS;
        from.len = HALF_CELLS;
    }
}
