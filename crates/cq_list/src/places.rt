//! The outputs of the cells of a list, in order.
ghost use Rattle.std.specs.Prelude.{◌≡◌, ℕ, ◌+◌, ◌-◌, ◌<◌, ◌≤◌, ◌^◌, ◌++◌, [], ◌∷◌, Some, IfOk, length, take, insert, remove, slice_get, slice_index_or};
ghost use Rattle.std.specs.List.{position_or_len, concat};
ghost use Rattle.cq_base.specs.Limits.{most_ports};
ghost use Rattle.cq_list.specs.Split.{is_output, place_of_nth, count_of};
ghost use Rattle.cq_list.specs.Places.{CanGrow, HasGrown, HaveMemory, IsSpot, IsAhead, AreFilled, IsFilledUp, joined, least_places, pulled};
ghost use Rattle.cq_list.specs.Block.{most_places};
ghost use Rattle.cq_list.specs.Sums.{IsStart, own_in};

use crate::block::{Block, HALF_PLACES, MOST_PLACES};
use crate::sum::Sum;
use crate::summed_blocks::SummedBlocks;
use cq_base::{MOST_PORTS, NoMemory, Port};
use std::alloc::Global;
use std::collections::VecDeque;
use std::marker::Model;

// The least places of a block that is not the last.
const LEAST_PLACES: usize = 16;

/// The output of each place of a list. Contracts see the outputs, and how many more places there is room for.
///
/// The places stand in blocks of at most 64, and each block but the last has at least 16, so that memory for a block
/// in 16 places is enough. A full block is split into two of 32, which 16 places or more have to leave before they are
/// joined again. The last block stays where it runs empty, so that a list that is often empty makes no block anew. The
/// first block stands apart, since most happens there, and the others in a deque, where a block that comes or goes
/// moves those on its shorter side: none, where the first is split or takes the next one in.
///
/// A place is found by the blocks' lengths and an output's by their counts: in the first block, or in the others by the
/// sums of their runs from the nearer end, and then in one run block by block, but for `count_ahead`, which goes along
/// all blocks from the start: a call reads two numbers of each run and block that it passes, and searches one block. So
/// what stands near the start or the end is found at once, and what stands in the middle of 50,000 places behind some
/// 12 runs of full blocks and 32 blocks at most.
#[derive(Drop)]
pub struct Places {
    first: Block,
    others: SummedBlocks,
    len: usize,
    room: u64,
}

impl Model for Places {
    ghost use Rattle.std.specs.Prelude.{◌-◌, ◌∷◌};
    ghost use Rattle.std.specs.List.{concat};
    ghost use Rattle.cq_list.specs.Places.{PlacesView, AreBlocks};

    ghost Value = { PlacesView };

    ghost view = { λ p. record { outputs = concat (p.first ∷ p.others.blocks); spare = p.room - p.len } };

    ghost invariant = { λ p. AreBlocks (p.first ∷ p.others.blocks) p.len p.room p.others.capacity };
}

// The block of a place, and where it stands in this block.
#[derive(Clone, Copy)]
struct Spot {
    block: usize,
    within: usize,
}

// How many places stand ahead of a block, and how many of these are an output's.
#[derive(Clone, Copy)]
struct Ahead {
    places: usize,
    own: usize,
}

// The block at which the run of a place begins, and how many places stand ahead of this run.
#[derive(Clone, Copy)]
struct Start {
    begin: usize,
    ahead: usize,
}

// Where the run of a place starts, from the first run on.
fn start_from_first(blocks: &SummedBlocks, place: usize) -> Start
    requires { place < length (concat blocks.now.blocks) }
    ensures { IsStart blocks.now place result.begin result.ahead }
{
    let mut left = place;
    let sums = blocks.sums();
    'runs: for run in 0..sums.len() {
        let places = sums[run].places();
        if left < places {
            return Start {
                begin: blocks.begin_of(run),
                ahead: place - left,
            };
        }
        left -= places;
    }
    unreachable!()
}

// Where the run of a place starts, from the last run back.
fn start_from_last(blocks: &SummedBlocks, place: usize, len: usize) -> Start
    requires inside { place < len }
    requires len { len ≡ length (concat blocks.now.blocks) }
    ensures { IsStart blocks.now place result.begin result.ahead }
{
    let mut ahead = len;
    let sums = blocks.sums();
    'runs: for passed in 0..sums.len() {
        let run = sums.len() - 1 - passed;
        ahead -= sums[run].places();
        if ahead <= place {
            return Start {
                begin: blocks.begin_of(run),
                ahead,
            };
        }
    }
    unreachable!()
}

// Where a place stands in its run.
fn spot_in(blocks: &SummedBlocks, place: usize, start: Start) -> Spot
    requires { IsStart blocks.now place start.begin start.ahead }
    ensures { IsSpot blocks.now.blocks place result.block result.within }
{
    let mut within = place - start.ahead;
    let count = blocks.len();
    'each: for block in start.begin..count {
        let len = blocks.at(block).len();
        if within < len {
            return Spot { block, within };
        }
        within -= len;
    }
    unreachable!()
}

// Where a place stands, from the nearer end.
fn spot_of(blocks: &SummedBlocks, place: usize, len: usize) -> Spot
    requires inside { place < len }
    requires len { len ≡ length (concat blocks.now.blocks) }
    ensures { IsSpot blocks.now.blocks place result.block result.within }
{
    let start = if place <= len / 2 {
        start_from_first(blocks, place)
    } else {
        start_from_last(blocks, place, len)
    };
    spot_in(blocks, place, start)
}

// What stands ahead of the block behind a block.
fn with_block(places: &Block, output: Port, ahead: Ahead) -> Ahead
    requires fits { ahead.places + length places.now < 2 ^ 64 }
    requires few { ahead.own + count_of output places.now < 2 ^ 64 }
    ensures places { result.places ≡ ahead.places + length places.now }
    ensures own { result.own ≡ ahead.own + count_of output places.now }
{
    Ahead {
        places: ahead.places + places.len(),
        own: ahead.own + places.count(output),
    }
}

// What stands ahead of the run behind a run.
fn with_run(sum: &Sum, output: Port, ahead: Ahead) -> Ahead
    requires fits { ahead.places + sum.now.places < 2 ^ 64 }
    requires few { ahead.own + own_in sum.now output < 2 ^ 64 }
    ensures places { result.places ≡ ahead.places + sum.now.places }
    ensures own { result.own ≡ ahead.own + own_in sum.now output }
{
    Ahead {
        places: ahead.places + sum.places(),
        own: ahead.own + sum.count(output),
    }
}

// What stands ahead of a run, by what stands ahead of the run behind it.
fn without_run(sum: &Sum, output: Port, ahead: Ahead) -> Ahead
    requires fits { sum.now.places ≤ ahead.places }
    requires few { own_in sum.now output ≤ ahead.own }
    ensures places { result.places ≡ ahead.places - sum.now.places }
    ensures own { result.own ≡ ahead.own - own_in sum.now output }
{
    Ahead {
        places: ahead.places - sum.places(),
        own: ahead.own - sum.count(output),
    }
}

// The place of an output that has so many of its places ahead, and where it stands, in the block that has it.
#[tactic(auto, using(crate::proofs::Nth::nth_inside))]
fn nth_in(places: &Block, block: usize, output: Port, number: usize, ahead: Ahead) -> (usize, Spot)
    requires fits { ahead.places + length places.now < 2 ^ 64 }
    requires late { ahead.own ≤ number }
    requires early { number < ahead.own + count_of output places.now }
    ensures place { result.0 ≡ ahead.places + result.1.within }
    ensures block { result.1.block ≡ block }
    ensures within { result.1.within ≡ place_of_nth (is_output output) (number - ahead.own) places.now }
{
    let within = places.place_of(output, number - ahead.own);
    (ahead.places + within, Spot { block, within })
}

// The same in the run that has it, which begins at this block.
fn find_in_run(
    blocks: &SummedBlocks,
    begin: usize,
    output: Port,
    number: usize,
    from: Ahead,
) -> (usize, Spot)
    requires ahead { IsAhead blocks.now.blocks output begin from.places from.own }
    requires late { from.own ≤ number }
    requires early { number < count_of output (concat blocks.now.blocks) }
    requires fits { length (concat blocks.now.blocks) < 2 ^ 64 }
    ensures place { result.0 ≡ place_of_nth (is_output output) number (concat blocks.now.blocks) }
    ensures spot { IsSpot blocks.now.blocks result.0 result.1.block result.1.within }
{
    let mut ahead = from;
    let count = blocks.len();
    'each: for block in begin..count {
        let places = blocks.at(block);
        let next = with_block(places, output, ahead);
        if number < next.own {
            return nth_in(places, block, output, number, ahead);
        }
        ahead = next;
    }
    unreachable!()
}

// The same in all blocks. Its run is looked for from both ends at once, so it is met from the nearer one. The sums tell
// nothing of an output that no port has: it is looked for block by block.
#[tactic(auto, using(crate::proofs::BlockWalk::find_from_ends_steps))]
fn find_from_ends(blocks: &SummedBlocks, output: Port, number: usize, all: Ahead) -> (usize, Spot)
    requires all { IsAhead blocks.now.blocks output (length blocks.now.blocks) all.places all.own }
    requires there { number < all.own }
    ensures place { result.0 ≡ place_of_nth (is_output output) number (concat blocks.now.blocks) }
    ensures spot { IsSpot blocks.now.blocks result.0 result.1.block result.1.within }
{
    let mut front = Ahead { places: 0, own: 0 };
    if output as usize >= MOST_PORTS {
        return find_in_run(blocks, 0, output, number, front);
    }
    let mut back = all;
    let sums = blocks.sums();
    let runs = sums.len();
    'runs: for first in 0..runs {
        let next = with_run(&sums[first], output, front);
        if number < next.own {
            return find_in_run(blocks, blocks.begin_of(first), output, number, front);
        }
        front = next;
        let last = runs - 1 - first;
        back = without_run(&sums[last], output, back);
        if back.own <= number {
            return find_in_run(blocks, blocks.begin_of(last), output, number, back);
        }
    }
    unreachable!()
}

// The same behind the first block, where that has no more than so many, and `all` counts the places of both. The place
// is told from the first block's end on. What works on other blocks stands apart, so that what the first one alone
// answers stays short.
#[inline(never)]
#[tactic(auto, using(crate::proofs::BlockWalk::ahead_behind, crate::proofs::Nth::nth_behind))]
fn find_behind(
    first: &Block,
    others: &SummedBlocks,
    output: Port,
    number: usize,
    all: Ahead,
) -> (usize, Spot)
    requires places { all.places ≡ length (first.now ++ concat others.now.blocks) }
    requires own { all.own ≡ count_of output (first.now ++ concat others.now.blocks) }
    requires late { count_of output first.now ≤ number }
    requires there { number < all.own }
    ensures place { length first.now + result.0
        ≡ place_of_nth (is_output output) number (first.now ++ concat others.now.blocks) }
    ensures spot { IsSpot others.now.blocks result.0 result.1.block result.1.within }
{
    let own = first.count(output);
    let behind = Ahead {
        places: all.places - first.len(),
        own: all.own - own,
    };
    find_from_ends(others, output, number - own, behind)
}

// How many of the places ahead of this one are an output's.
#[tactic(auto, using(crate::proofs::BlockWalk::count_steps))]
fn count_in(blocks: &SummedBlocks, output: Port, place: usize) -> usize
    requires inside { place ≤ length (concat blocks.now.blocks) }
    ensures { result ≡ count_of output (take place (concat blocks.now.blocks)) }
{
    let mut left = place;
    let mut count = 0;
    'each: for block in 0..blocks.len() {
        let places = blocks.at(block);
        let len = places.len();
        if left <= len {
            return count + places.count_ahead(output, left);
        }
        count += places.count(output);
        left -= len;
    }
    count
}

// A place in a full block, which is split in two. Its second half is given back.
#[tactic(auto, using(crate::proofs::Filled::split_steps))]
fn insert_and_split(block: &mut Block, place: usize, output: Port) -> Block
    requires full { length block.old ≡ most_places }
    requires inside { place < most_places }
    requires in_range { output < most_ports }
    ensures whole { block.new ++ result ≡ insert block.old place output }
    ensures front { least_places ≤ length block.new }
    ensures back { least_places ≤ length result }
{
    let mut back = block.split_off();
    if place < HALF_PLACES {
        block.insert(place, output);
    } else {
        back.insert(place - HALF_PLACES, output);
    }
    back
}

// A place at the end, in a block of its own behind a full one.
#[tactic(auto, using(crate::proofs::Filled::push_steps))]
fn push_block(blocks: &mut SummedBlocks, output: Port)
    requires can { CanGrow blocks.old output }
    requires full { (i : ℕ) → i + 1 ≡ length blocks.old.blocks →
        most_places ≤ length (slice_index_or blocks.old.blocks i []) }
    ensures { HasGrown (length (concat blocks.old.blocks)) output blocks.old blocks.new }
{
    let mut block = Block::new();
    block.insert(0, output);
    blocks.insert(blocks.len(), block);
}

// A place at the end, in the last block or behind it.
#[tactic(auto, using(crate::proofs::Filled::put_steps))]
fn append_behind(blocks: &mut SummedBlocks, last: usize, output: Port)
    requires can { CanGrow blocks.old output }
    requires last { last + 1 ≡ length blocks.old.blocks }
    ensures { HasGrown (length (concat blocks.old.blocks)) output blocks.old blocks.new }
{
    let len = blocks.at(last).len();
    if len < MOST_PLACES {
        blocks.put(last, len, output);
        return;
    }
    push_block(blocks, output);
}

// A place at the end.
fn append(blocks: &mut SummedBlocks, output: Port)
    requires { CanGrow blocks.old output }
    ensures { HasGrown (length (concat blocks.old.blocks)) output blocks.old blocks.new }
{
    let count = blocks.len();
    if count == 0 {
        push_block(blocks, output);
    } else {
        append_behind(blocks, count - 1, output);
    }
}

// Where a place stands once its block has room for one more: a full block is split in two.
#[tactic(auto, using(crate::proofs::Filled::room_for_block))]
fn spot_with_room(blocks: &mut SummedBlocks, _place: usize, spot: Spot) -> Spot
    requires filled { AreFilled blocks.old.blocks }
    requires memory { HaveMemory (length (concat blocks.old.blocks)) blocks.old.capacity }
    requires spot { IsSpot blocks.old.blocks _place spot.block spot.within }
    ensures places { concat blocks.new.blocks ≡ concat blocks.old.blocks }
    ensures filled { AreFilled blocks.new.blocks }
    ensures spot { IsSpot blocks.new.blocks _place result.block result.within }
    ensures room { length (slice_index_or blocks.new.blocks result.block []) < most_places }
    ensures capacity { blocks.old.capacity ≤ blocks.new.capacity }
{
    // Its contract tells that there are no more places than can be counted.
    let _count = blocks.len();
    if blocks.at(spot.block).len() < MOST_PLACES {
        return spot;
    }
    blocks.split(spot.block);
    if spot.within < HALF_PLACES {
        return spot;
    }
    Spot {
        block: spot.block + 1,
        within: spot.within - HALF_PLACES,
    }
}

// A place ahead of another one.
#[tactic(auto, using(crate::proofs::Filled::put_steps))]
fn insert_inside(blocks: &mut SummedBlocks, place: usize, len: usize, output: Port)
    requires can { CanGrow blocks.old output }
    requires inside { place < len }
    requires len { len ≡ length (concat blocks.old.blocks) }
    ensures { HasGrown place output blocks.old blocks.new }
{
    let spot = spot_of(blocks, place, len);
    let spot = spot_with_room(blocks, place, spot);
    blocks.put(spot.block, spot.within, output);
}

// The places of the next block go over to the end of a block.
#[tactic(auto, using(crate::proofs::Sums::length_went))]
fn join_next(blocks: &mut SummedBlocks, at: usize)
    requires inside { at + 1 < length blocks.old.blocks }
    requires fits { length (slice_index_or blocks.old.blocks at [])
        + length (slice_index_or blocks.old.blocks (at + 1) []) ≤ most_places }
    ensures joined { blocks.new.blocks ≡ joined blocks.old.blocks at }
    ensures capacity { blocks.new.capacity ≡ blocks.old.capacity }
{
    // Its contract tells that there are no more places than can be counted.
    let _count = blocks.len();
    let next = blocks.remove(at + 1);
    blocks.append(at, &next);
}

// The first place of the next block goes over to the end of a block.
#[tactic(auto, using(crate::proofs::Sums::block_set, crate::proofs::Sums::length_added))]
fn pull_next(blocks: &mut SummedBlocks, at: usize)
    requires inside { at + 1 < length blocks.old.blocks }
    requires room { length (slice_index_or blocks.old.blocks at []) < most_places }
    requires some { 0 < length (slice_index_or blocks.old.blocks (at + 1) []) }
    ensures pulled { blocks.new.blocks ≡ pulled blocks.old.blocks at }
    ensures capacity { blocks.new.capacity ≡ blocks.old.capacity }
{
    // Its contract tells that there are no more places than can be counted.
    let _count = blocks.len();
    let output = blocks.take(at + 1, 0);
    blocks.put(at, blocks.at(at).len(), output);
}

// A block that is as short as it may be gets the places of the next one, or the first of them where it has many. Its
// own places stand where they stood.
#[tactic(auto, using(cq_base::proofs::Library::get_or_read))]
fn fill_up(blocks: &mut SummedBlocks, _place: usize, spot: Spot)
    requires filled { AreFilled blocks.old.blocks }
    requires spot { IsSpot blocks.old.blocks _place spot.block spot.within }
    ensures places { concat blocks.new.blocks ≡ concat blocks.old.blocks }
    ensures filled { AreFilled blocks.new.blocks }
    ensures spot { IsSpot blocks.new.blocks _place spot.block spot.within }
    ensures longer { spot.block + 1 < length blocks.new.blocks →
        least_places < length (slice_index_or blocks.new.blocks spot.block []) }
    ensures capacity { blocks.new.capacity ≡ blocks.old.capacity }
{
    let at = spot.block;
    let count = blocks.len();
    let next = at + 1;
    if next == count {
        return;
    }
    let len = blocks.at(at).len();
    if len > LEAST_PLACES {
        return;
    }
    let many = blocks.at(next).len();
    if many <= HALF_PLACES {
        join_next(blocks, at);
    } else {
        pull_next(blocks, at);
    }
}

// A place taken out. The last block stays where it runs empty.
#[tactic(auto, using(crate::proofs::Filled::take_steps))]
fn remove_at(blocks: &mut SummedBlocks, _place: usize, spot: Spot)
    requires filled { AreFilled blocks.old.blocks }
    requires spot { IsSpot blocks.old.blocks _place spot.block spot.within }
    ensures places { concat blocks.new.blocks ≡ remove (concat blocks.old.blocks) _place }
    ensures filled { AreFilled blocks.new.blocks }
    ensures capacity { blocks.new.capacity ≡ blocks.old.capacity }
{
    fill_up(blocks, _place, spot);
    blocks.take(spot.block, spot.within);
}

// A place at the end of other blocks than the first, or ahead of one of theirs. It stands apart, as `find_behind` does.
#[inline(never)]
fn insert_behind(others: &mut SummedBlocks, place: usize, len: usize, output: Port)
    requires can { CanGrow others.old output }
    requires inside { place ≤ len }
    requires len { len ≡ length (concat others.old.blocks) }
    ensures { HasGrown place output others.old others.new }
{
    if place == len {
        append(others, output);
    } else {
        insert_inside(others, place, len, output);
    }
}

// A place in the first block, which is full, and is split in two. It stands apart, as `find_behind` does.
#[inline(never)]
#[tactic(auto, using(crate::proofs::Filled::room_for_block, std::proofs::Common::append_assoc))]
fn split_first(first: &mut Block, others: &mut SummedBlocks, place: usize, output: Port)
    requires can { CanGrow others.old output }
    requires full { length first.old ≡ most_places }
    requires inside { place < most_places }
    requires fits { length first.old + length (concat others.old.blocks) < 2 ^ 64 }
    ensures places { first.new ++ concat others.new.blocks
        ≡ insert (first.old ++ concat others.old.blocks) place output }
    ensures filled { AreFilled (first.new ∷ others.new.blocks) }
    ensures capacity { others.old.capacity ≤ others.new.capacity }
{
    let back = insert_and_split(first, place, output);
    others.insert(0, back);
}

// The first block, as short as it may be, gets the places of the next one, or the first of them where it has many. It
// stands apart, as `find_behind` does.
#[inline(never)]
fn fill_first(first: &mut Block, others: &mut SummedBlocks)
    requires filled { AreFilled (first.old ∷ others.old.blocks) }
    requires some { 0 < length others.old.blocks }
    requires short { length first.old ≤ least_places }
    ensures filled { IsFilledUp first.old others.old.blocks first.new others.new.blocks }
    ensures capacity { others.new.capacity ≡ others.old.capacity }
{
    if others.at(0).len() <= HALF_PLACES {
        let next = others.remove(0);
        first.append(&next);
    } else {
        let output = others.take(0, 0);
        first.insert(first.len(), output);
    }
}

// A place of the first block taken out.
fn remove_in_first(first: &mut Block, others: &mut SummedBlocks, place: usize)
    requires filled { AreFilled (first.old ∷ others.old.blocks) }
    requires inside { place < length first.old }
    ensures places { first.new ++ concat others.new.blocks
        ≡ remove (first.old ++ concat others.old.blocks) place }
    ensures filled { AreFilled (first.new ∷ others.new.blocks) }
    ensures capacity { others.new.capacity ≡ others.old.capacity }
{
    if first.len() <= LEAST_PLACES && others.len() > 0 {
        fill_first(first, others);
    }
    first.remove(place);
}

// The first place of an output taken out, which stands behind the first block. It is a call of its own, as
// `find_behind` is.
#[inline(never)]
#[tactic(auto, using(crate::proofs::Filled::rest_steps, crate::proofs::BlockWalk::remove_later))]
fn remove_behind(first: &Block, others: &mut SummedBlocks, output: Port, all: Ahead)
    requires filled { AreFilled (first.now ∷ others.old.blocks) }
    requires places { all.places ≡ length (first.now ++ concat others.old.blocks) }
    requires own { all.own ≡ count_of output (first.now ++ concat others.old.blocks) }
    requires behind { count_of output first.now ≡ 0 }
    requires some { 0 < all.own }
    ensures places { first.now ++ concat others.new.blocks
        ≡ remove (first.now ++ concat others.old.blocks)
        (place_of_nth (is_output output) 0 (first.now ++ concat others.old.blocks)) }
    ensures filled { AreFilled (first.now ∷ others.new.blocks) }
    ensures capacity { others.new.capacity ≡ others.old.capacity }
{
    let (place, spot) = find_behind(first, others, output, 0, all);
    remove_at(others, place, spot);
}

impl Places {
    /// No place, and room for so many. The error is want of memory.
    pub fn new(alloc: Global, room: u64) -> Result<Places, NoMemory>
        ensures outputs { IfOk result (λ places. places.outputs ≡ []) }
        ensures spare { IfOk result (λ places. places.spare ≡ room) }
    {
        Ok(Places {
            first: Block::new(),
            others: SummedBlocks::new(alloc, (room / LEAST_PLACES as u64 + 2) as usize)?,
            len: 0,
            room,
        })
    }

    /// How many places there are.
    pub fn len(&self) -> usize
        ensures { result ≡ length self.now.outputs }
    {
        self.len
    }

    /// The blocks in which the places stand: the first, and the others in order.
    pub fn blocks(&self) -> (&Block, &VecDeque<Block>)
        ensures { result.0.now ++ concat result.1.now.items ≡ self.now.outputs }
    {
        (&self.first, self.others.in_order())
    }

    /// The output of a place.
    #[tactic(auto, using(crate::proofs::Blocks::shown_front))]
    pub fn at(&self, place: usize) -> Port
        requires { place < length self.now.outputs }
        ensures { slice_get self.now.outputs place ≡ Some result }
    {
        let len = self.first.len();
        if place < len {
            return self.first.at(place);
        }
        let spot = spot_of(&self.others, place - len, self.len - len);
        self.others.at(spot.block).at(spot.within)
    }

    /// How many of the places ahead of this one are an output's.
    #[tactic(auto, using(crate::proofs::BlockWalk::count_ahead_steps))]
    pub fn count_ahead(&self, output: Port, place: usize) -> usize
        requires { place ≤ length self.now.outputs }
        ensures { result ≡ count_of output (take place self.now.outputs) }
    {
        let len = self.first.len();
        if place <= len {
            return self.first.count_ahead(output, place);
        }
        self.first.count(output) + count_in(&self.others, output, place - len)
    }

    /// The place of an output that has so many of its places ahead, where it has so many in all.
    #[tactic(auto, using(crate::proofs::Nth::nth_in_front, crate::proofs::Nth::nth_inside))]
    pub fn place_of(&self, output: Port, ahead: usize, all: usize) -> usize
        requires all { all ≡ count_of output self.now.outputs }
        requires there { ahead < all }
        ensures { result ≡ place_of_nth (is_output output) ahead self.now.outputs }
    {
        if ahead < self.first.count(output) {
            return self.first.place_of(output, ahead);
        }
        let all = Ahead {
            places: self.len,
            own: all,
        };
        let (place, _) = find_behind(&self.first, &self.others, output, ahead, all);
        self.first.len() + place
    }

    /// Puts a place of an output in. It takes room for one place and no memory.
    pub fn insert(&mut self, place: usize, output: Port)
        requires inside { place ≤ length self.old.outputs }
        requires spare { 0 < self.old.spare }
        requires in_range { output < most_ports }
        ensures outputs { self.new.outputs ≡ insert self.old.outputs place output }
        ensures spare { self.new.spare + 1 ≡ self.old.spare }
    {
        let len = self.first.len();
        if place <= len && len < MOST_PLACES {
            self.first.insert(place, output);
        } else if place < len {
            split_first(&mut self.first, &mut self.others, place, output);
        } else {
            insert_behind(&mut self.others, place - len, self.len - len, output);
        }
        self.len += 1;
    }

    /// Takes the first place of an output out, of so many in all, which gives its room back.
    #[tactic(auto, using(crate::proofs::Nth::remove_first_steps))]
    pub fn remove_first(&mut self, output: Port, all: usize)
        requires all { all ≡ count_of output self.old.outputs }
        requires some { 0 < all }
        ensures outputs { self.new.outputs ≡
            remove self.old.outputs (position_or_len (is_output output) self.old.outputs) }
        ensures spare { self.new.spare ≡ self.old.spare + 1 }
    {
        if self.first.count(output) == 0 {
            let all = Ahead {
                places: self.len,
                own: all,
            };
            remove_behind(&self.first, &mut self.others, output, all);
        } else {
            let place = self.first.place_of(output, 0);
            remove_in_first(&mut self.first, &mut self.others, place);
        }
        self.len -= 1;
    }
}
