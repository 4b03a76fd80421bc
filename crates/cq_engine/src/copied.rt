//! What an engine that stands still is copied into, and what one is made of that goes on.
ghost use Rattle.std.specs.Prelude.{◌≡◌, ℕ, ◌+◌, ◌<◌, All, IfOk, OnOk, filter, length, map, slice_index, slice_set};
ghost use Rattle.cq_base.specs.declared.cell.Queued.{Queued as OfCell};
ghost use Rattle.cq_engine.specs.Terms.{is_for, IsAmong, input, fabric_in, fabric_held};

use cq_base::{Figures, NoMemory, Port, Queued, Sequence};
use cq_ideal::Limiter;
use cq_laws::Frozen;
use std::alloc::{AllocError, Global};

/// The same figures. The error is want of memory.
pub fn copied_figures(alloc: Global, figures: &Figures) -> Result<Figures, NoMemory>
    ensures { IfOk result (λ copy. copy ≡ figures.now) }
{
    let inputs = Sequence::copy_of(alloc, figures.inputs.as_slice())?;
    let outputs = Sequence::copy_of(alloc, figures.outputs.as_slice())?;
    Ok(Figures {
        slots: figures.slots,
        proposals: figures.proposals,
        most: figures.most,
        inputs,
        outputs,
    })
}

fn length_of(cells: &Sequence<Queued>) -> u64
    ensures { result ≡ length cells.now }
{
    cells.as_slice().len() as u64
}

// How many cells each of these has.
#[tactic(auto, using(std::proofs::lemmas::Iterator::items_from_collect))]
fn lengths_of(alloc: Global, buffers: &[Sequence<Queued>]) -> Result<Vec<u64>, AllocError>
    ensures { IfOk result (λ counts. counts.items ≡ map length buffers.now) }
{
    buffers.iter().map(length_of).collect(alloc)
}

// One cell more is counted for an output. The error is want of memory: no memory holds more cells than 64 bits count.
fn count_one(held: &mut Sequence<u64>, output: Port) -> Result<(), NoMemory>
    requires { output < length held.old }
    ensures { OnOk result (held.new ≡ slice_set held.old output (slice_index held.old output + 1)) }
{
    let Some(more) = held.as_slice()[output as usize].checked_add(1) else {
        return Err(NoMemory);
    };
    held.set(output as usize, more);
    Ok(())
}

// The cells of a list are counted, each for its output. The error is want of memory, as that of `count_one`.
#[tactic(auto, using(crate::proofs::Counted::one_list))]
fn count_each(held: &mut Sequence<u64>, cells: &[Queued]) -> Result<(), NoMemory>
    requires outputs { All (λ c. c.cell.output < length held.old) cells.now }
    ensures ports { OnOk result (length held.new ≡ length held.old) }
    ensures counts { OnOk result ((j : ℕ) → j < length held.old →
        slice_index held.new j ≡ slice_index held.old j + length (filter (is_for j) cells.now)) }
{
    'cells: for queued in cells {
        count_one(held, queued.cell.output)?;
    }
    Ok(())
}

// How many cells each output holds, in the lists and in its buffer. The error is want of memory.
#[tactic(auto, using(crate::proofs::Counted::held_first, crate::proofs::Counted::held_last))]
fn held_in(alloc: Global, from: &Frozen) -> Result<Sequence<u64>, NoMemory>
    requires square { length from.now.buffers ≡ length from.now.lists }
    requires outputs { (i : ℕ) (c : OfCell) → IsAmong c (input (fabric_in from.now) i) →
        c.cell.output < length from.now.lists }
    ensures { IfOk result (λ held. held ≡ fabric_held (fabric_in from.now)) }
{
    let buffers = from.buffers.as_slice();
    let lists = from.lists.as_slice();
    let mut held = Sequence::of(lengths_of(alloc, buffers)?);
    'inputs: for list in lists {
        count_each(&mut held, list.as_slice())?;
    }
    Ok(held)
}

/// The limiter of an engine that goes on from a state: it has these limits, and the marks and the numbers of what was
/// refused of the state, and each output holds the cells that wait for it there. The error is want of memory, as that
/// of `count_one`.
#[tactic(auto, using(cq_fabric::proofs::Limits::held_long))]
pub fn limiter_of(alloc: Global, limits: &[Option<u64>], from: &Frozen) -> Result<Limiter, NoMemory>
    requires square { length from.now.buffers ≡ length from.now.lists }
    requires ports { length from.now.lists ≡ length limits.now }
    requires marks { length from.now.marks ≡ length limits.now }
    requires outputs { (i : ℕ) (c : OfCell) → IsAmong c (input (fabric_in from.now) i) →
        c.cell.output < length from.now.lists }
    ensures limits { IfOk result (λ limiter. limiter.limits ≡ limits.now) }
    ensures held { IfOk result (λ limiter. limiter.held ≡ fabric_held (fabric_in from.now)) }
    ensures marks { IfOk result (λ limiter. limiter.marks ≡ from.now.marks) }
    ensures refused { IfOk result (λ limiter. limiter.refused ≡ from.now.refused) }
{
    let held = held_in(alloc, from)?;
    let marks = from.marks.as_slice();
    let refused = from.refused.as_slice();
    Limiter::of(alloc, limits, held.as_slice(), marks, refused)
}
