//! The straight way of cells through a fabric in which none waits.
//!
//! Where each cell that comes is for another output, the first matching has all of them, and each is sent in the slot
//! in which it came. So no list and no buffer is touched, and no matching is looked for.
ghost use Rattle.std.specs.Prelude.{◌≡◌, ◌↔◌, ◌+◌, ◌-◌, ◌<◌, ◌≤◌, ◌^◌, ◌++◌, ℕ, IsTrue, Some, length, map, slice_get, take};
ghost use Rattle.std.specs.List.{enumerate_from};
ghost use Rattle.cq_base.specs.declared.cell.Queued.{Queued as OfCell};
ghost use Rattle.cq_base.specs.declared.figures.InputFigures.{InputFigures as OfInput};
ghost use Rattle.cq_engine.specs.Terms.{came_to, CanSend, EachHasSent, AreApart, AreSent, CanGoStraight, GoStraight, crossings, input_passed, most_ports};

use crate::depart::leave;
use cq_base::{Departure, Figures, InputFigures, Queued, Room, Sequence, Slot, Transfer};
use cq_fabric::{Gone, Queues};
use cq_ideal::{Limiter, Newcomers, Ranks};
use cq_rank::Rank;

// Each cell that came is put at the place of its output. The answer is whether no two are for one output.
fn fill(gone: &mut Gone, came: &Newcomers, ports: u16) -> bool
    requires few { ports ≤ most_ports }
    requires outputs { (i : ℕ) (c : OfCell) → came_to came.now i ≡ Some c → c.cell.output < ports }
    ensures wide { ports ≤ length gone.new }
    ensures apart { IsTrue result ↔ AreApart ports came.now }
    ensures sent { IsTrue result → AreSent ports ports came.now gone.new }
{
    gone.clear(ports);
    'inputs: for input in 0..ports {
        if let Some(queued) = came.at(input as usize) {
            if gone.at(queued.cell.output).is_some() {
                return false;
            }
            gone.put(queued.cell.output, queued);
        }
    }
    true
}

/// Whether the cells that came can go straight through, since none waits, and no two of them are for one output. Then
/// each of them is in `gone` at the place of its output.
pub fn go_straight(queues: &Queues, came: &Newcomers, gone: &mut Gone) -> bool
    requires { (i : ℕ) (c : OfCell) → came_to came.now i ≡ Some c → c.cell.output < length queues.now.inputs }
    ensures goes { IsTrue result ↔ CanGoStraight queues.now came.now }
    ensures sent { IsTrue result → GoStraight queues.now came.now (take (length queues.now.inputs) gone.new) }
{
    queues.are_empty() && fill(gone, came, queues.ports())
}

// Each cell that came is noted as one that crosses in the first phase.
#[tactic(auto, using(crate::proofs::StraightSlot::note_steps), unfolding(crate::specs::Straight::crossings))]
fn note_each(came: &Newcomers, inputs: usize, slot: Slot, note: &mut Room<Transfer>)
    requires few { inputs ≤ most_ports }
    requires room { inputs ≤ note.old.spare }
    ensures items { note.new.items ≡ note.old.items ++ crossings slot inputs came.now }
    ensures spare { note.new.spare + length (crossings slot inputs came.now) ≡ note.old.spare }
    ensures few { note.old.spare ≤ note.new.spare + inputs }
{
    'inputs: for input in 0..inputs as u16 {
        if let Some(queued) = came.at(input as usize) {
            note.push(Transfer {
                slot,
                phase: 1,
                input,
                output: queued.cell.output,
                id: queued.cell.id,
            });
        }
    }
}

// What was seen of an input to which this cell came. That is the same for each cell, so the contract alone names it.
fn input_passed(figures: InputFigures, _queued: Queued) -> InputFigures
    requires { figures.cells < 2 ^ 64 - 1 }
    ensures { result ≡ input_passed (Some _queued) figures }
{
    InputFigures {
        cells: figures.cells + 1,
        longest: figures.longest.max(1),
        slack: Some(0),
    }
}

// Adds the cells that came to what was seen of the inputs. Where none came nothing changes.
#[tactic(auto, using(cq_fabric::proofs::Changed::all_changed))]
fn count_passed(inputs: &mut Sequence<InputFigures>, came: &Newcomers, ports: usize)
    requires few { ports ≤ most_ports }
    requires ports { length inputs.old ≡ ports }
    requires counts { (i : ℕ) (x : OfInput) → slice_get inputs.old i ≡ Some x → x.cells < 2 ^ 64 - 1 }
    ensures { inputs.new ≡ map (λ at. input_passed (came_to came.now at.0) at.1) (enumerate_from 0 inputs.old) }
{
    'inputs: for input in 0..ports {
        if let Some(queued) = came.at(input) {
            let counted = input_passed(inputs.as_slice()[input], queued);
            inputs.set(input, counted);
        }
    }
}

/// The cells that came cross in the first phase, and the outputs send them, each that of its place in `gone`. The
/// answer is how many there were.
pub fn pass<R: Rank>(
    ranks: &mut Ranks<R>,
    limiter: &mut Limiter,
    figures: &mut Figures,
    came: &Newcomers,
    gone: &[Option<Queued>],
    slot: Slot,
    sent: &mut Room<Departure>,
    note: &mut Room<Transfer>,
) -> u64
    requires few { length gone.now ≤ most_ports }
    requires send { CanSend slot gone.now ranks.old limiter.old figures.old sent.old }
    requires note { length gone.now ≤ note.old.spare }
    requires inputs { length figures.old.inputs ≡ length gone.now }
    requires input_counts { (i : ℕ) (x : OfInput) → slice_get figures.old.inputs i ≡ Some x → x.cells < 2 ^ 64 - 1 }
    ensures many { result ≡ length (crossings slot (length gone.now) came.now) }
    ensures few { result ≤ length gone.now }
    ensures sent { EachHasSent (map R.machine ranks.old.fixed) slot gone.now ranks.old ranks.new limiter.old limiter.new
        figures.old figures.new sent.old sent.new }
    ensures note { note.new.items ≡ note.old.items ++ crossings slot (length gone.now) came.now }
    ensures note_room { note.new.spare + length (crossings slot (length gone.now) came.now) ≡ note.old.spare }
    ensures input_figures { figures.new.inputs ≡ map (λ at. input_passed (came_to came.now at.0) at.1)
        (enumerate_from 0 figures.old.inputs) }
{
    let room = note.spare();
    note_each(came, gone.len(), slot, note);
    count_passed(&mut figures.inputs, came, gone.len());
    leave(ranks, limiter, figures, gone, slot, sent);
    room - note.spare()
}
