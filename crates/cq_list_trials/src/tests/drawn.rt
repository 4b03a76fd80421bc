//! Drawn calls on what keeps cells, compared with a plain list.
ghost use Rattle.std.specs.Prelude.{◌+◌, ◌≤◌, ℕ, length};

use cq_base::{NoMemory, Queued};
use cq_list::InputList;
use cq_trial_kit::Draws;
use cq_urgency::OutputBuffer;
use std::alloc::Global;

/// What keeps cells in order. In each slot one comes, or the first one for an output leaves.
pub(super) trait Keeper {
    /// What is so before the call of a slot.
    ghost awaits: { ℕ → Self → Type 0 };

    /// Whether the call of a slot answers as that of a plain list.
    fn agrees(&mut self, plain: &mut Plain, slot: u32) -> Result<bool, NoMemory>
        requires { awaits slot self.old }
        ensures { awaits (slot + 1) self.new };

    /// How many cells there are.
    fn count(&self) -> u64;

    /// Whether this cell stands at a place.
    fn has_at(&self, place: u64, queued: &Queued) -> bool;
}

/// A plain list, and what is drawn.
#[derive(Drop)]
pub(super) struct Plain {
    pub(super) cells: Vec<Queued>,
    pub(super) draws: Draws,
}

impl Plain {
    /// The place at which a cell goes in that comes behind all others but less urgent ones for its output.
    pub(super) fn place_in(&self, queued: &Queued) -> usize
        ensures { result ≤ length self.now.cells.items }
    {
        for (place, other) in self.cells.iter().enumerate() {
            if other.cell.output == queued.cell.output && queued.key < other.key {
                return place;
            }
        }
        self.cells.len()
    }

    /// The first cell for an output leaves.
    pub(super) fn take(&mut self, output: u16) -> Option<Queued> {
        let place = self
            .cells
            .iter()
            .position(|waiting| waiting.cell.output == output)?;
        Some(self.cells.remove(place))
    }
}

// Whether the cells are those of a plain list.
fn are_same<K: Keeper>(keeper: &K, cells: &[Queued]) -> bool {
    for (place, queued) in cells.iter().enumerate() {
        if !keeper.has_at(place as u64, queued) {
            return false;
        }
    }
    keeper.count() == cells.len() as u64
}

// Whether drawn calls answer as those of a plain list, and leave the same cells.
fn agrees_always<K: Keeper>(keeper: &mut K, plain: &mut Plain) -> Result<bool, NoMemory>
    requires { K.awaits 0 keeper.old }
{
    'calls: for slot in 0..2000_u32 {
        if !keeper.agrees(plain, slot)? {
            return Ok(false);
        }
    }
    Ok(are_same(keeper, &plain.cells))
}

// Whether they do from an empty plain list on.
fn agrees_from_none<K: Keeper>(alloc: Global, keeper: &mut K) -> bool
    requires { K.awaits 0 keeper.old }
{
    let mut plain = Plain {
        cells: Vec::new(alloc),
        draws: Draws::from_seed(1),
    };
    agrees_always(keeper, &mut plain) == Ok(true)
}

// Whether they do in the list of an input, for three outputs, and in the buffer of an output.
fn each_agrees(alloc: Global) -> Result<bool, NoMemory> {
    let mut list = InputList::new(alloc, 3, 600)?;
    let list_agrees = agrees_from_none(alloc, &mut list);
    drop(list);
    let mut buffer = OutputBuffer::new(alloc, 300)?;
    let buffer_agrees = agrees_from_none(alloc, &mut buffer);
    drop(buffer);
    Ok(list_agrees && buffer_agrees)
}

#[test]
fn drawn_calls_answer_as_a_plain_list_does(rt: HostRuntime) {
    assert!(rt; each_agrees(rt.alloc()) == Ok(true));
}
