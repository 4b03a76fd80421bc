//! The list of an input: worked insertions, the calls that are drawn, and the call that wants memory, with ample
//! memory.
ghost use Rattle.std.specs.Prelude.{◌≡◌, ℕ, ◌+◌, ◌<◌, ◌≤◌, ◌&&◌, All, [], length};
ghost use Rattle.cq_base.specs.Key.{is_before};
ghost use Rattle.cq_base.specs.Cells.{ArrivedBefore, MoreUrgentAhead, is_for, with_arrival, without_first};
ghost use Rattle.cq_trial_kit.specs.Arriving.{IsNewest, HasArrived};

use super::drawn::{Keeper, Plain};
use cq_base::{NoMemory, Port, Queued};
use cq_list::InputList;
use cq_trial_kit::{Draws, arrive, list_of, waiting};
use std::alloc::Global;

// Two cells for output 0, of which the newer one is the more urgent, and one for output 1.
const URGENT: [(Port, u128); 3] = [(0, 3), (1, 0), (0, 1)];

// A cell for output 0, and two for output 1, of which the newer one is the less urgent.
const PATIENT: [(Port, u128); 3] = [(0, 3), (1, 0), (1, 5)];

// Whether three cells that come one after another stand in the order of these slots.
fn stand_so(alloc: Global, cells: &[(Port, u128)], slots: [u64; 3]) -> Result<bool, NoMemory>
    requires count { length cells.now ≡ 3 }
    requires cells { All (λ cell. cell.0 < 2) cells.now }
{
    let list = list_of(alloc, 0, 2, cells)?;
    let stand = [
        list.at(0).key.slot,
        list.at(1).key.slot,
        list.at(2).key.slot,
    ];
    drop(list);
    Ok(stand == slots)
}

// Whether the first cell for each output is found, with its place.
fn finds_by_output(list: &InputList) -> bool {
    let fronts = [list.front_for(0), list.front_for(1), list.front_for(2)];
    let places = [list.place_for(0), list.place_for(1), list.place_for(2)];
    fronts == [Some(waiting(0, 0, 1, 2)), Some(waiting(0, 1, 0, 1)), None]
        && places == [Some(0), Some(2), None]
}

// Whether a cell that is there is found by its id, and one that is not is not.
fn finds_by_id(list: &InputList) -> bool {
    let threads = [
        list.thread_of(waiting(0, 0, 3, 0).cell.id),
        list.thread_of(waiting(0, 1, 0, 1).cell.id),
        list.thread_of(waiting(0, 0, 3, 3).cell.id),
    ];
    threads == [Some(1), Some(2), None]
}

// Whether a cell is found by its output and its key, and the end where there is none.
fn finds_by_key(list: &InputList) -> bool
    requires { list.now.outputs ≡ 3 }
{
    let places = [
        list.place_of_key(0, waiting(0, 0, 1, 2).key),
        list.place_of_key(0, waiting(0, 0, 3, 0).key),
        list.place_of_key(1, waiting(0, 1, 0, 1).key),
        list.place_of_key(2, waiting(0, 2, 0, 3).key),
    ];
    places == [0, 1, 2, 3]
}

// Whether all three find among the three cells, of which the last one is urgent, what they are to find.
fn each_finds(alloc: Global) -> Result<bool, NoMemory> {
    let list = list_of(alloc, 0, 3, &URGENT)?;
    let finds = finds_by_output(&list) && finds_by_id(&list) && finds_by_key(&list);
    drop(list);
    Ok(finds)
}

// Whether a cell goes ahead of less urgent ones for its output, and is found by its output, its id and its key.
fn each_stands_and_finds(alloc: Global) -> Result<bool, NoMemory> {
    Ok(
        stand_so(alloc, &URGENT, [2, 0, 1])?
            && stand_so(alloc, &PATIENT, [0, 1, 2])?
            && each_finds(alloc)?,
    )
}

#[test]
fn a_cell_goes_ahead_of_less_urgent_ones_and_is_found(rt: HostRuntime) {
    assert!(rt; each_stands_and_finds(rt.alloc()) == Ok(true));
}

// The first cell for an output leaves, if there is one.
pub(super) fn depart(list: &mut InputList, output: u16, _slot: u32) -> Option<Queued>
    requires { ArrivedBefore _slot list.old.cells }
    ensures cells { list.new.cells ≡ without_first output list.old.cells }
    ensures arrived { ArrivedBefore (_slot + 1) list.new.cells }
    ensures room { list.new.spare + length list.new.cells ≡ list.old.spare + length list.old.cells }
    ensures outputs { list.new.outputs ≡ list.old.outputs }
{
    list.take(output)
}

// The least cushion with which a cell may go in: all more urgent cells for its output stand ahead of it.
fn least_cushion(list: &InputList, queued: &Queued) -> u64
    ensures { (cushion : ℕ) → result ≤ cushion → MoreUrgentAhead cushion queued.now list.now.cells }
{
    let mut least = 0;
    'places: for place in 0..list.len() {
        if is_ahead(&list.at(place), queued) {
            least = place + 1;
        }
    }
    least
}

// Whether a cell is for the same output, and more urgent.
fn is_ahead(other: &Queued, queued: &Queued) -> bool
    ensures { result ≡ (is_for queued.now.cell.output other.now && is_before other.now.key queued.now.key) }
{
    other.cell.output == queued.cell.output && other.key.precedes(queued.key)
}

// The newest cell goes in with this cushion, or with the least that it may have. The answer is the one that it had.
#[tactic(auto, using(cq_base::proofs::Lists::other_key_newest, cq_base::proofs::Lists::arrived_newest))]
pub(super) fn cut_in(list: &mut InputList, queued: Queued, cushion: u64) -> u64
    requires { IsNewest queued list.old }
    ensures arrived { HasArrived queued list.old list.new }
    ensures cells { list.new.cells ≡ with_arrival result queued list.old.cells }
{
    let least = least_cushion(list, &queued);
    let had = cushion.max(least);
    list.insert(queued, had);
    had
}

// Whether a cell arrives in this slot: for 200 slots nine in ten do, and then one in ten.
fn one_arrives(slot: u32, draws: &mut Draws) -> bool {
    draws.below(10) < if slot / 200 % 2 == 0 { 9 } else { 1 }
}

// For which of three outputs the cell is that comes or goes: while most go, all are for one output.
fn output_in(slot: u32, draws: &mut Draws) -> u16
    ensures { result < 3 }
{
    if slot / 200 % 2 == 0 {
        draws.below(3) as u16
    } else {
        (slot / 400 % 3) as u16
    }
}

impl Keeper for InputList {
    ghost awaits = { λ slot list. ArrivedBefore slot list.cells × (list.spare + length list.cells ≡ 600)
        × (list.outputs ≡ 3) };

    fn agrees(&mut self, plain: &mut Plain, slot: u32) -> Result<bool, NoMemory> {
        let output = output_in(slot, &mut plain.draws);
        if self.len() < 600 && one_arrives(slot, &mut plain.draws) {
            let queued = waiting(0, output, plain.draws.below(40) as u128, slot);
            let cushion = cut_in(self, queued, plain.draws.below(500));
            let place = plain.place_in(&queued).min(cushion as usize);
            plain.cells.insert(place, queued)?;
            return Ok(true);
        }
        Ok(depart(self, output, slot) == plain.take(output))
    }

    fn count(&self) -> u64 {
        self.len()
    }

    fn has_at(&self, place: u64, queued: &Queued) -> bool {
        place < self.len() && self.at(place) == *queued
    }
}

// So many cells come to a list, each for a drawn output and of a drawn rank.
fn come(list: &mut InputList, draws: &mut Draws)
    requires cells { list.old.cells ≡ [] }
    requires spare { list.old.spare ≡ 5000 }
    requires outputs { list.old.outputs ≡ 3 }
{
    'cells: for slot in 0..5000_u32 {
        let output = draws.below(3) as u16;
        arrive(list, waiting(0, output, draws.below(1000) as u128, slot));
    }
}

// Half of them leave.
fn leave(list: &mut InputList, draws: &mut Draws) {
    'cells: for _ in 0..2500_u32 {
        list.take(draws.below(3) as u16);
    }
}

// Whether a cell stands at its place, and is found by its key.
fn finds_one(list: &InputList, place: u64, queued: &Queued) -> bool {
    let output = queued.cell.output;
    list.has_at(place, queued)
        && output < list.outputs()
        && list.place_of_key(output, queued.key) == place
}

// Whether each seventh cell is found.
fn finds_some(list: &InputList, cells: &[Queued]) -> bool {
    for (place, queued) in cells.iter().enumerate() {
        if place % 7 == 0 && !finds_one(list, place as u64, queued) {
            return false;
        }
    }
    true
}

// Whether they are found among all cells, for which memory may be wanted.
fn finds_among(alloc: Global, list: &InputList) -> bool {
    match list.cells(alloc) {
        Ok(cells) => finds_some(list, cells.as_slice()),
        Err(_) => false,
    }
}

// Whether they are found where so many wait that the blocks make more than three runs, and once half of them left.
fn finds_among_many(alloc: Global) -> Result<bool, NoMemory> {
    let mut list = InputList::new(alloc, 3, 5000)?;
    let mut draws = Draws::from_seed(1);
    come(&mut list, &mut draws);
    let finds = finds_among(alloc, &list);
    leave(&mut list, &mut draws);
    let finds_still = finds_among(alloc, &list);
    drop(list);
    Ok(finds && finds_still)
}

#[test]
fn a_cell_among_many_is_found_at_its_place(rt: HostRuntime) {
    assert!(rt; finds_among_many(rt.alloc()) == Ok(true));
}
