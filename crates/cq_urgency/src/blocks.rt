//! Cells in blocks, in an order of blocks.
ghost use Rattle.std.specs.Prelude.{◌≡◌, ◌≢◌, ℕ, ◌+◌, ◌<◌, ◌≤◌, ◌^◌, ◌∷◌, ◌++◌, [], Some, IfOk, length, take, drop, insert, slice_get, slice_set, slice_index_or, vec_capacity};
ghost use Rattle.std.specs.List.{sum_by};
ghost use Rattle.std.specs.VecDeque.{deque_capacity};
ghost use Rattle.cq_urgency.specs.Blocks.{flattened, block_at, cells_in_all, half_cells, halved, without_first, times, has, ComesIn, IsParted, most_cells};

use crate::block::{Block, HALF_CELLS};
use cq_base::{NoMemory, Queued};
use std::alloc::Global;
use std::collections::VecDeque;
use std::marker::Model;

/// Cells in blocks of at most 64. Contracts see the cells of each block, in the order of the blocks, and how many
/// blocks there can be.
///
/// The blocks stand in a pool and stay where they are. The order has their numbers, and the counts say how many cells
/// each block behind the first has: so to put a block in between two others moves numbers and no cells, and to count
/// the cells ahead of a block reads counts that stand next to each other, and no block but the first. A block that
/// comes or goes moves the numbers on its shorter side, and the first block none. The number of the first block stands
/// apart as well: where there is no other, as mostly, none is looked up in a deque. An emptied block is free, and is
/// used again before the pool grows. All memory is reserved at the start, and none of it is touched before it is used.
#[derive(Drop)]
pub struct Blocks {
    pool: Vec<Block>,
    first: usize,
    order: VecDeque<usize>,
    counts: VecDeque<usize>,
    free: Vec<usize>,
    most: usize,
}

impl Model for Blocks {
    ghost use Rattle.std.specs.Prelude.{length, vec_capacity};
    ghost use Rattle.std.specs.VecDeque.{deque_capacity};
    ghost use Rattle.cq_urgency.specs.Blocks.{BlocksView, in_order, ArePlaced, HaveMemory};

    ghost Value = { BlocksView };

    ghost view = { λ b. record { blocks = in_order b.pool.items b.order.items; most = b.most } };

    ghost invariant = { λ b. ArePlaced b.pool.items b.first b.order.items b.counts.items b.free.items
        × HaveMemory b.most (length b.pool.items) (vec_capacity b.pool) (deque_capacity b.order)
        (deque_capacity b.counts) (vec_capacity b.free) };
}

// A new block of one cell. It is made apart from all callers, so that none of them has room for a block on its stack.
#[inline(never)]
fn push_block(pool: &mut Vec<Block>, queued: Queued)
    requires { length pool.old.items < vec_capacity pool.old }
    ensures blocks { pool.new.items ≡ pool.old.items ++ (queued ∷ []) ∷ [] }
    ensures capacity { vec_capacity pool.new ≡ vec_capacity pool.old }
{
    pool.push_reserved(Block::of(queued));
}

// A block of one cell comes into the pool, in place of a free one where there is one. The answer is its number.
#[tactic(auto, using(crate::proofs::Placed::free_steps))]
fn put_block(pool: &mut Vec<Block>, free: &mut Vec<usize>, queued: Queued) -> usize
    requires within { (n : ℕ) → times n free.old.items ≤ has pool.old.items n }
    requires memory { length free.old.items ≡ 0 → length pool.old.items < vec_capacity pool.old }
    ensures comes { ComesIn pool.old.items free.old.items pool.new.items free.new.items (queued ∷ []) result }
    ensures pool { vec_capacity pool.new ≡ vec_capacity pool.old }
    ensures free { vec_capacity free.new ≡ vec_capacity free.old }
{
    match free.pop() {
        Some(number) => {
            pool[number].restart(queued);
            number
        }
        None => {
            let number = pool.len();
            push_block(pool, queued);
            number
        }
    }
}

// The second half of a full block goes over to another one, in place of the cells that it had.
#[tactic(auto, using(crate::proofs::Placed::move_steps))]
fn move_half(pool: &mut [Block], from: usize, to: usize)
    requires from { from < length pool.old }
    requires to { to < length pool.old }
    requires apart { to ≢ from }
    requires full { length (block_at pool.old from) ≡ most_cells }
    ensures { IsParted pool.old pool.new from to }
{
    if from < to {
        let (front, back) = pool.split_at_mut(to);
        back[0].take_half(&mut front[from]);
    } else {
        let (front, back) = pool.split_at_mut(from);
        front[to].take_half(&mut back[0]);
    }
}

// The second half of a full block becomes a block of its own. The answer is its number.
#[tactic(auto, using(crate::proofs::Placed::half_steps))]
fn put_half(pool: &mut Vec<Block>, free: &mut Vec<usize>, number: usize) -> usize
    requires there { number < length pool.old.items }
    requires used { times number free.old.items ≡ 0 }
    requires full { length (block_at pool.old.items number) ≡ most_cells }
    requires within { (n : ℕ) → times n free.old.items ≤ has pool.old.items n }
    requires memory { length free.old.items ≡ 0 → length pool.old.items < vec_capacity pool.old }
    ensures comes { ComesIn (slice_set pool.old.items number (take half_cells (block_at pool.old.items number)))
        free.old.items pool.new.items free.new.items (drop half_cells (block_at pool.old.items number)) result }
    ensures pool { vec_capacity pool.new ≡ vec_capacity pool.old }
    ensures free { vec_capacity free.new ≡ vec_capacity free.old }
{
    let first = pool[number].at(HALF_CELLS);
    let other = put_block(pool, free, first);
    move_half(pool, number, other);
    other
}

// The number at a place in the order, of which the first one stands apart as well.
fn number_at(first: usize, order: &VecDeque<usize>, place: usize) -> usize
    requires inside { place < length order.now.items }
    requires first { first ≡ slice_index_or order.now.items 0 first }
    ensures { result ≡ slice_index_or order.now.items place result }
{
    if place == 0 {
        return first;
    }
    order[place]
}

// Counts the cells of a block anew, where it is not the first.
#[tactic(auto, using(crate::proofs::Placed::set_steps))]
fn set_count(counts: &mut VecDeque<usize>, block: usize, count: usize)
    requires { block ≤ length counts.old.items }
    ensures counts { counts.new.items ≡ drop 1 (slice_set (0 ∷ counts.old.items) block count) }
    ensures capacity { deque_capacity counts.new ≡ deque_capacity counts.old }
{
    if block == 0 {
        return;
    }
    counts[block - 1] = count;
}

// The sum of the counts from one place up to another.
#[tactic(auto, using(std::proofs::lemmas::List::Sums::sum_by_more, std::proofs::lemmas::List::Sums::sum_by_more_le))]
fn sum_of(counts: &VecDeque<usize>, from: usize, to: usize) -> usize
    requires order { from ≤ to }
    requires inside { to ≤ length counts.now.items }
    requires fits { sum_by (λ n. n) counts.now.items < 2 ^ 64 }
    ensures { sum_by (λ n. n) (take from counts.now.items) + result ≡ sum_by (λ n. n) (take to counts.now.items) }
{
    let mut sum = 0;
    'places: for place in from..to {
        sum += counts[place];
    }
    sum
}

impl Blocks {
    /// No block, and room for so many. The error is want of memory.
    pub fn new(alloc: Global, most: usize) -> Result<Blocks, NoMemory>
        ensures blocks { IfOk result (λ blocks. blocks.blocks ≡ []) }
        ensures most { IfOk result (λ blocks. blocks.most ≡ most) }
    {
        Ok(Blocks {
            pool: Vec::with_capacity(alloc, most)?,
            first: 0,
            order: VecDeque::with_capacity(alloc, most)?,
            counts: VecDeque::with_capacity(alloc, most)?,
            free: Vec::with_capacity(alloc, most)?,
            most,
        })
    }

    /// How many blocks there are.
    pub fn len(&self) -> usize
        ensures { result ≡ length self.now.blocks }
    {
        self.order.len()
    }

    /// The block at a place in the order.
    #[tactic(auto, using(crate::proofs::Placed::block_steps))]
    pub fn block(&self, place: usize) -> &Block
        requires { place < length self.now.blocks }
        ensures { result.now ≡ block_at self.now.blocks place }
    {
        &self.pool[number_at(self.first, &self.order, place)]
    }

    /// How many of so many cells stand in the blocks ahead of this place. Those ahead are added, or the others are
    /// taken off, whichever blocks are fewer.
    #[tactic(auto, using(crate::proofs::Placed::ahead_steps))]
    pub fn ahead(&self, place: usize, cells: usize) -> usize
        requires inside { place ≤ length self.now.blocks }
        requires cells { cells ≡ cells_in_all self.now.blocks }
        ensures { result ≡ cells_in_all (take place self.now.blocks) }
    {
        if place == 0 {
            return 0;
        }
        let len = self.counts.len();
        if place > len / 2 {
            return cells - sum_of(&self.counts, place - 1, len);
        }
        self.block(0).len() + sum_of(&self.counts, 0, place - 1)
    }

    /// The cell that has so many ahead.
    #[tactic(auto, using(crate::proofs::Flattened::at_steps))]
    pub fn at(&self, ahead: usize) -> Queued
        requires { ahead < length (flattened self.now.blocks) }
        ensures { slice_get (flattened self.now.blocks) ahead ≡ Some result }
    {
        let mut within = ahead;
        'places: for place in 0..self.len() {
            let block = self.block(place);
            if within < block.len() {
                return block.at(within);
            }
            within -= block.len();
        }
        unreachable!()
    }

    /// The cells, of which there are so many, block after block. The error is want of memory.
    #[tactic(auto, using(crate::proofs::Flattened::one_more))]
    pub fn cells(&self, alloc: Global, len: usize) -> Result<Vec<Queued>, NoMemory>
        ensures { IfOk result (λ cells. cells.items ≡ flattened self.now.blocks) }
    {
        let mut cells = Vec::with_capacity(alloc, len)?;
        'each: for place in 0..self.len() {
            cells.extend_from_slice(self.block(place).cells())?;
        }
        Ok(cells)
    }

    /// The first block, of one cell.
    #[tactic(auto, using(crate::proofs::Placed::start_steps))]
    pub fn start(&mut self, queued: Queued)
        requires none { self.old.blocks ≡ [] }
        requires room { 0 < self.old.most }
        ensures blocks { self.new.blocks ≡ (queued ∷ []) ∷ [] }
        ensures most { self.new.most ≡ self.old.most }
    {
        let number = put_block(&mut self.pool, &mut self.free, queued);
        self.first = number;
        self.order.push_back_reserved(number);
    }

    /// Puts a cell into a block.
    #[tactic(auto, using(crate::proofs::Placed::insert_steps))]
    pub fn insert(&mut self, block: usize, place: usize, queued: Queued)
        requires block { block < length self.old.blocks }
        requires inside { place ≤ length (block_at self.old.blocks block) }
        requires room { length (block_at self.old.blocks block) < most_cells }
        ensures blocks { self.new.blocks ≡
            slice_set self.old.blocks block (insert (block_at self.old.blocks block) place queued) }
        ensures most { self.new.most ≡ self.old.most }
    {
        let number = number_at(self.first, &self.order, block);
        let cells = &mut self.pool[number];
        cells.insert(place, queued);
        let count = cells.len();
        set_count(&mut self.counts, block, count);
    }

    /// Splits a full block in two halves, and answers the place of the second one.
    #[tactic(auto, using(crate::proofs::Placed::cut_steps))]
    pub fn split(&mut self, block: usize) -> usize
        requires block { block < length self.old.blocks }
        requires full { length (block_at self.old.blocks block) ≡ most_cells }
        requires room { length self.old.blocks < self.old.most }
        ensures back { result ≡ block + 1 }
        ensures blocks { self.new.blocks ≡ halved self.old.blocks block }
        ensures most { self.new.most ≡ self.old.most }
    {
        let number = number_at(self.first, &self.order, block);
        let other = put_half(&mut self.pool, &mut self.free, number);
        self.order.insert(block + 1, other).unwrap();
        set_count(&mut self.counts, block, HALF_CELLS);
        self.counts.insert(block, HALF_CELLS).unwrap();
        block + 1
    }

    // Takes the first block away.
    #[tactic(auto, using(crate::proofs::Placed::freed_steps))]
    fn free_first(&mut self)
        requires { 0 < length self.old.blocks }
        ensures blocks { self.new.blocks ≡ drop 1 self.old.blocks }
        ensures most { self.new.most ≡ self.old.most }
    {
        self.free.push_reserved(self.first);
        self.order.pop_front();
        self.counts.pop_front();
        if let Some(first) = self.order.front() {
            self.first = *first;
        }
    }

    // Takes the first cell out of the first block. The answer is the cell, and how many cells the block has left.
    #[tactic(auto, using(crate::proofs::Placed::pop_steps))]
    fn pop_first(&mut self) -> (Queued, usize)
        requires block { 0 < length self.old.blocks }
        requires some { 0 < length (block_at self.old.blocks 0) }
        ensures first { slice_get (block_at self.old.blocks 0) 0 ≡ Some result.0 }
        ensures left { result.1 + 1 ≡ length (block_at self.old.blocks 0) }
        ensures blocks { self.new.blocks ≡ slice_set self.old.blocks 0 (drop 1 (block_at self.old.blocks 0)) }
        ensures most { self.new.most ≡ self.old.most }
    {
        let block = &mut self.pool[self.first];
        let queued = block.pop();
        (queued, block.len())
    }

    /// Takes the first cell out, and its block where this was the only cell of it.
    #[tactic(auto, using(crate::proofs::Placed::emptied, crate::proofs::Placed::without_cell))]
    pub fn pop(&mut self) -> Queued
        requires block { 0 < length self.old.blocks }
        requires some { 0 < length (block_at self.old.blocks 0) }
        ensures first { slice_get (block_at self.old.blocks 0) 0 ≡ Some result }
        ensures blocks { self.new.blocks ≡ without_first self.old.blocks }
        ensures most { self.new.most ≡ self.old.most }
    {
        let (queued, left) = self.pop_first();
        if left == 0 {
            self.free_first();
        }
        queued
    }
}
