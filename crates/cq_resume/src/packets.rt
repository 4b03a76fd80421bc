//! The packets that have begun: each is named whole or not at all, and then it was refused.
ghost use Rattle.std.specs.Prelude.{◌≡◌, ◌∷◌, ◌+◌, ◌==◌, ◌<◌, ◌≤◌, ◌^◌, [], if◌then◌else◌, AllPairs, IfNone, IfOk, IfSome, false, length, map};
ghost use Rattle.cq_resume.specs.Terms.{CanCount, with_refused, ArePackets, IsNameBefore, PacketsStand, TalliesUp, coming, has_limit, has_name, mark_on, may_come, unnamed, most_ports};

use crate::found::{Name, is_named, names_at};
use cq_base::{Cell, NoMemory, Port, Sequence, Slot};
use cq_cells::Schedule;
use cq_ideal::{count_refused, none_refused};
use cq_laws::Refused;
use std::alloc::Global;

/// What the arrivals that are not named come to.
#[derive(Drop)]
pub struct Tally {
    /// For each input whether the packet that began there last is not named.
    pub marks: Sequence<bool>,
    /// What was refused at each output that has a limit, in order.
    pub refused: Sequence<Refused>,
}

// The cell that arrives at an input next, from this slot on and before the next one of the run, with its slot.
#[tactic(auto, using(crate::proofs::Coming::coming_steps))]
fn next_cell(schedule: &Schedule, input: Port, from: Slot, next: Slot) -> Option<(Slot, Cell)>
    requires input { input < schedule.now.ports }
    requires packets { ArePackets schedule.now.ports schedule.now.came }
    ensures none { IfNone result (coming input from next schedule.now.came ≡ []) }
    ensures early { IfSome result (λ x. (from ≤ x.0) × (x.0 < next)) }
    ensures some { IfSome result (λ x. coming input from next schedule.now.came
        ≡ record { slot = x.0; cell = x.1 } ∷ coming input (x.0 + 1) next schedule.now.came) }
{
    let slot = schedule.next_at(input, from)?;
    if slot >= next {
        return None;
    }
    let cell = schedule.cell_at(slot, input)?;
    Some((slot, cell))
}

// Whether a cell may come where the packet before it is left out or not: the first of a packet always may, another
// only if it is named as its packet is; and one that is not named only for an output that has a limit.
fn may_come(first: bool, named: bool, limited: bool, mark: bool) -> bool
    ensures { result ≡ may_come first named limited mark }
{
    (first || mark != named) && (named || limited)
}

// A cell is counted where it is left out.
#[tactic(auto, using(cq_ideal::proofs::Counting::none_counted))]
fn count_left(refused: &mut [Refused], cell: Cell, left: bool)
    requires { CanCount 1 refused.old }
    ensures { refused.new ≡ with_refused (if left then cell ∷ [] else []) refused.old }
{
    if !left {
        return;
    }
    count_refused(refused, cell);
}

// Goes through what arrived at an input before the next slot, and counts what is not named. The answer is the mark of
// the input, or None where a packet is named in part, or not at all though its output has no limit.
fn walk(
    schedule: &Schedule,
    input: Port,
    next: Slot,
    names: &[Name],
    limits: &[Option<u64>],
    refused: &mut [Refused],
) -> Option<bool>
    requires input { input < schedule.now.ports }
    requires next { next < 2 ^ 63 }
    requires packets { ArePackets schedule.now.ports schedule.now.came }
    requires limits { length limits.now ≡ schedule.now.ports }
    requires ordered { AllPairs IsNameBefore names.now }
    requires room { CanCount (length (coming input 0 next schedule.now.came)) refused.old }
    ensures mark { result ≡ mark_on (has_name names.now) (has_limit limits.now) false
        (coming input 0 next schedule.now.came) }
    ensures refused { IfSome result (λ _. refused.new
        ≡ with_refused (map (λ a. a.cell) (unnamed names.now (coming input 0 next schedule.now.came))) refused.old) }
{
    let mut mark = false;
    let mut from = 0;
    // The names of an input stand in the order in which its cells arrive, so the next one that is named is here.
    let own = names_at(names, input);
    let mut near = 0;
    'arrivals: while let Some((slot, cell)) = next_cell(schedule, input, from, next) {
        let named = is_named(own, input, slot, near);
        near = near.saturating_add(usize::from(named));
        let limited = limits[cell.output as usize].is_some();
        if !may_come(cell.id.index == 0, named, limited, mark) {
            return None;
        }
        mark = !named;
        count_left(refused, cell, mark);
        from = slot + 1;
    }
    Some(mark)
}

/// What the arrivals before the next slot come to that are not named. None where a packet is named in part, or where
/// one is not named whose output has no limit. The error is want of memory.
#[tactic(auto, using(crate::proofs::Adding::packet_fails))]
pub fn tally_packets(
    alloc: Global,
    schedule: &Schedule,
    next: Slot,
    names: &[Name],
    limits: &[Option<u64>],
) -> Result<Option<Tally>, NoMemory>
    requires next { next < 2 ^ 63 }
    requires few { length limits.now ≤ most_ports }
    requires limits { length limits.now ≡ schedule.now.ports }
    requires packets { ArePackets schedule.now.ports schedule.now.came }
    requires ordered { AllPairs IsNameBefore names.now }
    ensures stand { IfOk result (λ tally.
        IfSome tally (λ x. PacketsStand limits.now next schedule.now.came names.now)) }
    ensures tally { IfOk result (λ tally. IfSome tally (TalliesUp limits.now next schedule.now.came names.now)) }
    ensures none { IfOk result (λ tally. IfNone tally (PacketsStand limits.now next schedule.now.came names.now → ⊥)) }
{
    // Its contract tells that no more cells arrive than can be counted.
    let _total = schedule.total();
    let mut marks = Vec::new(alloc);
    let mut refused = none_refused(alloc, limits)?;
    'inputs: for input in 0..limits.len() {
        match walk(schedule, input as Port, next, names, limits, &mut refused) {
            Some(mark) => marks.push(mark)?,
            None => return Ok(None),
        }
    }
    Ok(Some(Tally {
        marks: Sequence::of(marks),
        refused: Sequence::of(refused),
    }))
}
