//! The buffer of cells that wait at one output.
ghost use Rattle.std.specs.Prelude.{◌≡◌, ◌+◌, ◌<◌, ◌≤◌, ◌/◌, ◌^◌, [], Some, IfOk, IfSome, length, drop, slice_get, is_some, if◌then◌else◌};
ghost use Rattle.cq_base.specs.Cells.{HasOtherKey, IsRising, cushion, put};
ghost use Rattle.cq_urgency.specs.Blocks.{flattened, block_at, half_cells, most_cells};
ghost use Rattle.cq_urgency.specs.OutputBuffer.{AreFilled, AreBegun, IsSpot, starts_before};

use crate::block::{HALF_CELLS, MOST_CELLS};
use crate::blocks::Blocks;
use cq_base::{Key, NoMemory, Queued, Sequence};
use std::alloc::Global;
use std::marker::Model;

/// The cells that wait at an output, the most urgent first. Contracts see the cells, and how many more there is room
/// for.
///
/// The cells stand in the order of their keys, so no two of them have the same key. They stand in blocks of at most 64.
/// Most cells that come are less urgent than all that wait, so the last cell is looked at first. Else the block of a
/// key is found by halving, on the first cells of the blocks, and its place there by halving in the block. A cushion
/// adds the counts of the blocks ahead, or takes those of the blocks behind off the whole, whichever are fewer: one
/// addition a block, and at most one for 64 cells.
///
/// A full block is split in half where a cell comes in, and only the first block loses cells. So each other block has
/// 32 cells at least, and a 32nd of the room and one more is enough blocks.
#[derive(Drop)]
pub struct OutputBuffer {
    blocks: Blocks,
    len: u64,
    room: u64,
}

impl Model for OutputBuffer {
    ghost use Rattle.std.specs.Prelude.{◌-◌};
    ghost use Rattle.cq_urgency.specs.Blocks.{flattened};
    ghost use Rattle.cq_urgency.specs.OutputBuffer.{Buffered, IsBuffer};

    ghost Value = { Buffered };

    ghost view = { λ b. record { cells = flattened b.blocks.blocks; spare = b.room - b.len } };

    ghost invariant = { λ b. IsBuffer b.blocks.blocks b.blocks.most b.len b.room };
}

// A place in the order of blocks, and a place in this block.
#[derive(Clone, Copy)]
struct Spot {
    block: usize,
    within: usize,
}

// Whether a block begins with a lesser key.
fn begins_before(blocks: &Blocks, block: usize, key: Key) -> bool
    requires inside { block < length blocks.now.blocks }
    requires filled { AreFilled blocks.now.blocks }
    ensures { result ≡ starts_before key (block_at blocks.now.blocks block) }
{
    blocks.block(block).at(0).key.precedes(key)
}

// How many blocks begin with a lesser key, by halving.
fn begun(blocks: &Blocks, key: Key) -> usize
    requires { AreFilled blocks.now.blocks }
    ensures { AreBegun key blocks.now.blocks result }
{
    let mut low = 0;
    let mut high = blocks.len();
    'halves: while low < high {
        let middle = low + (high - low) / 2;
        if begins_before(blocks, middle, key) {
            low = middle + 1;
        } else {
            high = middle;
        }
    }
    low
}

// Behind all cells, where the last one has a lesser key.
#[tactic(auto, using(crate::proofs::Spots::spot_steps))]
fn spot_at_end(blocks: &Blocks, key: Key) -> Option<Spot>
    requires rising { IsRising (flattened blocks.now.blocks) }
    requires filled { AreFilled blocks.now.blocks }
    requires some { 0 < length blocks.now.blocks }
    ensures { IfSome result (λ spot. IsSpot blocks.now.blocks
        (cushion key (flattened blocks.now.blocks)) spot.block spot.within) }
{
    let last = blocks.len() - 1;
    let end = blocks.block(last);
    let within = end.len();
    let place = within - 1;
    if end.at(place).key.precedes(key) {
        return Some(Spot {
            block: last,
            within,
        });
    }
    None
}

// Where the cells of lesser key end: in the last block that begins with one, or ahead of all.
#[tactic(auto, using(crate::proofs::Spots::spot_steps))]
fn spot_of(blocks: &Blocks, key: Key) -> Spot
    requires rising { IsRising (flattened blocks.now.blocks) }
    requires filled { AreFilled blocks.now.blocks }
    requires some { 0 < length blocks.now.blocks }
    ensures { IsSpot blocks.now.blocks (cushion key (flattened blocks.now.blocks)) result.block result.within }
{
    if let Some(spot) = spot_at_end(blocks, key) {
        return spot;
    }
    let place = begun(blocks, key);
    if place == 0 {
        return Spot {
            block: 0,
            within: 0,
        };
    }
    let block = place - 1;
    Spot {
        block,
        within: blocks.block(block).cushion(key),
    }
}

// How many of so many cells have a lesser key.
#[tactic(auto, using(crate::proofs::Flattened::cushion_steps))]
fn cushion_in(blocks: &Blocks, key: Key, len: u64) -> u64
    requires rising { IsRising (flattened blocks.now.blocks) }
    requires filled { AreFilled blocks.now.blocks }
    requires counted { len ≡ length (flattened blocks.now.blocks) }
    ensures { result ≡ cushion key (flattened blocks.now.blocks) }
{
    if len == 0 {
        return 0;
    }
    let spot = spot_of(blocks, key);
    (blocks.ahead(spot.block, len as usize) + spot.within) as u64
}

// The same in a block with room: a full block is split in two.
#[tactic(auto, using(crate::proofs::Spots::split_steps))]
fn spot_with_room(blocks: &mut Blocks, key: Key, _room: u64) -> Spot
    requires rising { IsRising (flattened blocks.old.blocks) }
    requires filled { AreFilled blocks.old.blocks }
    requires some { 0 < length blocks.old.blocks }
    requires fits { length (flattened blocks.old.blocks) ≤ _room }
    requires enough { blocks.old.most ≡ _room / half_cells + 1 }
    ensures cells { flattened blocks.new.blocks ≡ flattened blocks.old.blocks }
    ensures filled { AreFilled blocks.new.blocks }
    ensures most { blocks.new.most ≡ blocks.old.most }
    ensures spot { IsSpot blocks.new.blocks (cushion key (flattened blocks.old.blocks)) result.block result.within }
    ensures room { length (block_at blocks.new.blocks result.block) < most_cells }
{
    let spot = spot_of(blocks, key);
    if blocks.block(spot.block).len() < MOST_CELLS {
        return spot;
    }
    let back = blocks.split(spot.block);
    if spot.within <= HALF_CELLS {
        return spot;
    }
    Spot {
        block: back,
        within: spot.within - HALF_CELLS,
    }
}

// A cell comes into the blocks.
#[tactic(auto, using(crate::proofs::Flattened::insert_in, crate::proofs::Halving::put_is))]
fn put_into(blocks: &mut Blocks, queued: Queued, room: u64)
    requires rising { IsRising (flattened blocks.old.blocks) }
    requires filled { AreFilled blocks.old.blocks }
    requires other_key { HasOtherKey queued (flattened blocks.old.blocks) }
    requires fits { length (flattened blocks.old.blocks) ≤ room }
    requires enough { blocks.old.most ≡ room / half_cells + 1 }
    ensures cells { flattened blocks.new.blocks ≡ put queued (flattened blocks.old.blocks) }
    ensures filled { AreFilled blocks.new.blocks }
    ensures most { blocks.new.most ≡ blocks.old.most }
{
    if blocks.len() == 0 {
        blocks.start(queued);
        return;
    }
    let spot = spot_with_room(blocks, queued.key, room);
    blocks.insert(spot.block, spot.within, queued);
}

impl OutputBuffer {
    /// No cell waits, and there is room for so many cells. The error is want of memory.
    pub fn new(alloc: Global, room: u64) -> Result<OutputBuffer, NoMemory>
        ensures cells { IfOk result (λ buffer. buffer.cells ≡ []) }
        ensures spare { IfOk result (λ buffer. buffer.spare ≡ room) }
    {
        Ok(OutputBuffer {
            blocks: Blocks::new(alloc, room as usize / HALF_CELLS + 1)?,
            len: 0,
            room,
        })
    }

    /// The cushion of a key: how many of the cells have a lesser key.
    pub fn cushion(&self, key: Key) -> u64
        ensures { result ≡ cushion key self.now.cells }
    {
        cushion_in(&self.blocks, key, self.len)
    }

    /// A cell comes in. It goes before the first cell with a greater key, or to the end, and the other cells keep
    /// their order. It takes room for one cell and no memory.
    #[tactic(auto, using(cq_base::proofs::Putting::length_put, cq_base::proofs::Putting::rising_put))]
    pub fn put(&mut self, queued: Queued)
        requires spare { 0 < self.old.spare }
        requires other_key { HasOtherKey queued self.old.cells }
        ensures cells { self.new.cells ≡ put queued self.old.cells }
        ensures spare { self.new.spare + 1 ≡ self.old.spare }
    {
        put_into(&mut self.blocks, queued, self.room);
        self.len += 1;
    }

    /// Takes the first cell out, which has the least key and gives its room back. It is None where no cell waits,
    /// and then the buffer is as before.
    pub fn pop(&mut self) -> Option<Queued>
        ensures first { result ≡ slice_get self.old.cells 0 }
        ensures cells { self.new.cells ≡ drop 1 self.old.cells }
        ensures spare { self.new.spare ≡ self.old.spare + (if is_some result then 1 else 0) }
    {
        if self.len == 0 {
            return None;
        }
        self.len -= 1;
        Some(self.blocks.pop())
    }

    /// How many cells wait.
    pub fn len(&self) -> u64
        ensures len { result ≡ length self.now.cells }
        ensures rising { IsRising self.now.cells }
    {
        self.len
    }

    /// The cell at a place in the order of keys, counted from 0.
    pub fn at(&self, place: u64) -> Queued
        requires { place < length self.now.cells }
        ensures { slice_get self.now.cells place ≡ Some result }
    {
        self.blocks.at(place as usize)
    }

    /// The cells, the most urgent first, each looked at once. The error is want of memory.
    pub fn cells(&self, alloc: Global) -> Result<Sequence<Queued>, NoMemory>
        ensures { IfOk result (λ cells. cells ≡ self.now.cells) }
    {
        Ok(Sequence::of(self.blocks.cells(alloc, self.len as usize)?))
    }
}
