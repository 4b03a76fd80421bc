//! The blocks of a list behind the first, with the sum of each run of 32 of them.
ghost use Rattle.std.specs.Prelude.{◌≡◌, ◌+◌, ◌<◌, ◌≤◌, ◌^◌, ◌++◌, [], Some, take, drop, IfOk, length, insert, remove, slice_get, slice_set, slice_index_or, ◌*◌, vec_capacity};
ghost use Rattle.std.specs.List.{concat};
ghost use Rattle.cq_base.specs.Limits.{most_ports};
ghost use Rattle.cq_list.specs.Block.{half_places, most_places};
ghost use Rattle.cq_list.specs.Sums.{AreOpen, ArePassing, AreSums, AreTaking, begin_of, run_blocks};

use crate::block::Block;
use crate::sum::Sum;
use cq_base::{NoMemory, Port};
use std::alloc::Global;
use std::collections::VecDeque;
use std::marker::Model;

// The blocks of a run.
const RUN_BLOCKS: usize = 32;

/// Blocks in order, with the sum of each run of 32. Contracts see the places of each block, of how many the first run
/// is short, and for how many blocks there is memory.
///
/// A block that comes or goes moves those on its shorter side, and one block from run to run behind it. The first run
/// may be short of up to 31 blocks: where the first block goes, or one comes ahead of it, no other run changes.
#[derive(Drop)]
pub struct SummedBlocks {
    blocks: VecDeque<Block>,
    sums: Vec<Sum>,
    offset: usize,
}

impl Model for SummedBlocks {
    ghost use Rattle.std.specs.Prelude.{◌+◌, ◌-◌, ◌*◌, min, vec_capacity};
    ghost use Rattle.std.specs.VecDeque.{deque_capacity};
    ghost use Rattle.cq_list.specs.Sums.{BlocksView, AreSummed, run_blocks};

    ghost Value = { BlocksView };

    ghost view = { λ b. record {
      blocks = b.blocks.items;
      offset = b.offset;
      capacity = min (deque_capacity b.blocks) (run_blocks * vec_capacity b.sums + 1 - run_blocks);
    } };

    ghost invariant = { λ b. AreSummed b.blocks.items b.offset b.sums.items };
}

impl SummedBlocks {
    /// No block, and memory for so many. The error is want of memory.
    pub fn new(alloc: Global, capacity: usize) -> Result<SummedBlocks, NoMemory>
        ensures blocks { IfOk result (λ blocks. blocks.blocks ≡ []) }
        ensures capacity { IfOk result (λ blocks. capacity ≤ blocks.capacity) }
    {
        Ok(SummedBlocks {
            blocks: VecDeque::with_capacity(alloc, capacity)?,
            sums: Vec::with_capacity(alloc, capacity / RUN_BLOCKS + 2)?,
            offset: 0,
        })
    }

    /// How many blocks there are. They have no more places than can be counted.
    pub fn len(&self) -> usize
        ensures len { result ≡ length self.now.blocks }
        ensures fits { length (concat self.now.blocks) < 2 ^ 64 }
    {
        self.blocks.len()
    }

    /// The sums of the runs, in order.
    pub fn sums(&self) -> &[Sum]
        ensures { AreSums self.now.blocks self.now.offset result.now }
    {
        self.sums.as_slice()
    }

    /// The block at which a run begins.
    pub fn begin_of(&self, run: usize) -> usize
        requires { run_blocks * run < length self.now.blocks + self.now.offset }
        ensures { result ≡ begin_of self.now.offset run }
    {
        let offset = self.offset;
        (run * RUN_BLOCKS).saturating_sub(offset)
    }

    /// A block.
    pub fn at(&self, block: usize) -> &Block
        requires { block < length self.now.blocks }
        ensures { result.now ≡ slice_index_or self.now.blocks block [] }
    {
        &self.blocks[block]
    }

    /// The blocks in order.
    pub fn in_order(&self) -> &VecDeque<Block>
        ensures { result.now.items ≡ self.now.blocks }
    {
        &self.blocks
    }

    /// Puts a place of an output into a block.
    pub fn put(&mut self, block: usize, within: usize, output: Port)
        requires inside { block < length self.old.blocks }
        requires within { within ≤ length (slice_index_or self.old.blocks block []) }
        requires room { length (slice_index_or self.old.blocks block []) < most_places }
        requires in_range { output < most_ports }
        requires fits { length (concat self.old.blocks) + 1 < 2 ^ 64 }
        ensures blocks { self.new.blocks ≡ slice_set self.old.blocks block
            (insert (slice_index_or self.old.blocks block []) within output) }
        ensures capacity { self.new.capacity ≡ self.old.capacity }
    {
        self.sums[(block + self.offset) / RUN_BLOCKS].put(output);
        self.blocks[block].insert(within, output);
    }

    /// Takes a place out of a block, and answers its output.
    pub fn take(&mut self, block: usize, within: usize) -> Port
        requires inside { block < length self.old.blocks }
        requires within { within < length (slice_index_or self.old.blocks block []) }
        ensures output { slice_get (slice_index_or self.old.blocks block []) within ≡ Some result }
        ensures in_range { result < most_ports }
        ensures blocks { self.new.blocks ≡ slice_set self.old.blocks block
            (remove (slice_index_or self.old.blocks block []) within) }
        ensures capacity { self.new.capacity ≡ self.old.capacity }
    {
        let output = self.blocks[block].remove(within);
        self.sums[(block + self.offset) / RUN_BLOCKS].take(output);
        output
    }

    /// Puts places behind those of a block.
    pub fn append(&mut self, block: usize, more: &Block)
        requires inside { block < length self.old.blocks }
        requires room { length (slice_index_or self.old.blocks block []) + length more.now ≤ most_places }
        requires fits { length (concat self.old.blocks) + length more.now < 2 ^ 64 }
        ensures blocks { self.new.blocks ≡ slice_set self.old.blocks block
            (slice_index_or self.old.blocks block [] ++ more.now) }
        ensures capacity { self.new.capacity ≡ self.old.capacity }
    {
        self.sums[(block + self.offset) / RUN_BLOCKS].add(more);
        self.blocks[block].append(more);
    }

    /// Splits a full block in two.
    pub fn split(&mut self, block: usize)
        requires inside { block < length self.old.blocks }
        requires full { length (slice_index_or self.old.blocks block []) ≡ most_places }
        requires memory { length self.old.blocks < self.old.capacity }
        ensures blocks { self.new.blocks ≡ insert
            (slice_set self.old.blocks block (take half_places (slice_index_or self.old.blocks block [])))
            (block + 1) (drop half_places (slice_index_or self.old.blocks block [])) }
        ensures capacity { self.old.capacity ≤ self.new.capacity }
    {
        let back = self.blocks[block].split_off();
        self.sums[(block + self.offset) / RUN_BLOCKS].subtract(&back);
        self.insert(block + 1, back);
    }

    /// Puts a block in.
    #[tactic(auto, using(crate::proofs::Runs::insert_steps))]
    pub fn insert(&mut self, place: usize, block: Block)
        requires inside { place ≤ length self.old.blocks }
        requires memory { length self.old.blocks < self.old.capacity }
        requires fits { length (concat self.old.blocks) + length block < 2 ^ 64 }
        ensures blocks { self.new.blocks ≡ insert self.old.blocks place block }
        ensures capacity { self.old.capacity ≤ self.new.capacity }
    {
        if place == 0 {
            self.insert_first(block);
            return;
        }
        open_run(&mut self.sums, &self.blocks, self.offset);
        let run = (place + self.offset) / RUN_BLOCKS;
        self.sums[run].add(&block);
        self.blocks.insert(place, block).unwrap();
        pass_on(&mut self.sums, &self.blocks, self.offset, run);
    }

    // Puts a block in ahead of all others.
    fn insert_first(&mut self, block: Block)
        requires memory { length self.old.blocks < self.old.capacity }
        requires fits { length (concat self.old.blocks) + length block < 2 ^ 64 }
        ensures blocks { self.new.blocks ≡ insert self.old.blocks 0 block }
        ensures capacity { self.old.capacity ≤ self.new.capacity }
    {
        let short = open_first(&mut self.sums, &self.blocks, self.offset);
        self.offset = short - 1;
        self.sums[0].add(&block);
        self.blocks.push_front_reserved(block);
    }

    /// Takes a block out.
    #[tactic(auto, using(crate::proofs::Runs::remove_steps))]
    pub fn remove(&mut self, place: usize) -> Block
        requires { place < length self.old.blocks }
        ensures block { result ≡ slice_index_or self.old.blocks place [] }
        ensures blocks { self.new.blocks ≡ remove self.old.blocks place }
        ensures capacity { self.new.capacity ≡ self.old.capacity }
    {
        let gone = self.blocks.remove(place).unwrap();
        let run = (place + self.offset) / RUN_BLOCKS;
        self.sums[run].subtract(&gone);
        if place == 0 {
            self.offset = close_first(&mut self.sums, &self.blocks, self.offset + 1);
        } else {
            take_on(&mut self.sums, &self.blocks, self.offset, run);
            close_run(&mut self.sums, &self.blocks, self.offset);
        }
        gone
    }
}

// Of how many blocks the first run is short, of one at least: where it is full, one of no block comes ahead of it.
fn open_first(sums: &mut Vec<Sum>, _blocks: &VecDeque<Block>, offset: usize) -> usize
    requires sums { AreSums _blocks.now.items offset sums.old.items }
    requires short { offset < run_blocks }
    requires memory { length _blocks.now.items + run_blocks ≤ run_blocks * vec_capacity sums.old }
    ensures sums { AreSums _blocks.now.items result sums.new.items }
    ensures some { 0 < result }
    ensures most { result ≤ run_blocks }
    ensures capacity { vec_capacity sums.new ≡ vec_capacity sums.old }
{
    if offset > 0 {
        return offset;
    }
    sums.insert(0, Sum::none()).unwrap();
    RUN_BLOCKS
}

// Of how many blocks the first run is short, once one of no block is gone.
fn close_first(sums: &mut Vec<Sum>, _blocks: &VecDeque<Block>, offset: usize) -> usize
    requires sums { AreSums _blocks.now.items offset sums.old.items }
    requires most { offset ≤ run_blocks }
    ensures sums { AreSums _blocks.now.items result sums.new.items }
    ensures short { result < run_blocks }
    ensures capacity { vec_capacity sums.new ≡ vec_capacity sums.old }
{
    if offset < RUN_BLOCKS {
        return offset;
    }
    sums.remove(0);
    0
}

// A run for one block more: where the last is full, one of no block.
fn open_run(sums: &mut Vec<Sum>, blocks: &VecDeque<Block>, offset: usize)
    requires sums { AreSums blocks.now.items offset sums.old.items }
    requires short { offset < run_blocks }
    requires memory { length blocks.now.items + offset < run_blocks * vec_capacity sums.old }
    ensures sums { AreOpen blocks.now.items offset sums.new.items }
    ensures capacity { vec_capacity sums.new ≡ vec_capacity sums.old }
{
    if blocks.len() + offset == RUN_BLOCKS * sums.len() {
        sums.push_reserved(Sum::none());
    }
}

// A last run of no block goes.
fn close_run(sums: &mut Vec<Sum>, blocks: &VecDeque<Block>, offset: usize)
    requires open { AreOpen blocks.now.items offset sums.old.items }
    requires short { offset < run_blocks }
    ensures sums { AreSums blocks.now.items offset sums.new.items }
    ensures capacity { vec_capacity sums.new ≡ vec_capacity sums.old }
{
    if blocks.len() + offset + RUN_BLOCKS <= RUN_BLOCKS * sums.len() {
        sums.pop();
    }
}

// A block that came is one too many in its run: each run behind it gets the last block of the one ahead of it.
fn pass_on(sums: &mut [Sum], blocks: &VecDeque<Block>, offset: usize, run: usize)
    requires inside { run < length sums.old }
    requires short { offset < run_blocks }
    requires passing { ArePassing blocks.now.items offset sums.old (run + 1) }
    requires fits { length (concat blocks.now.items) < 2 ^ 64 }
    ensures { AreSums blocks.now.items offset sums.new }
{
    'runs: for next in run + 1..sums.len() {
        let first = &blocks[next * RUN_BLOCKS - offset];
        sums[next - 1].subtract(first);
        sums[next].add(first);
    }
}

// A block that went is missing in its run: each run behind it gives its first block to the one ahead of it.
fn take_on(sums: &mut [Sum], blocks: &VecDeque<Block>, offset: usize, run: usize)
    requires inside { run < length sums.old }
    requires short { offset < run_blocks }
    requires taking { AreTaking blocks.now.items offset sums.old (run + 1) }
    requires fits { length (concat blocks.now.items) < 2 ^ 64 }
    ensures { AreOpen blocks.now.items offset sums.new }
{
    'runs: for next in run + 1..sums.len() {
        let last = &blocks[next * RUN_BLOCKS - offset - 1];
        sums[next - 1].add(last);
        sums[next].subtract(last);
    }
}
