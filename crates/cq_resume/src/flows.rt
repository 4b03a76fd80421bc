//! The cells of one input, output and class: they leave in the order of arrival.
ghost use Rattle.std.specs.Prelude.{◌≡◌, ◌↔◌, ◌<◌, ◌≤◌, AllPairs, IfOk, IsTrue, None, replicate};
ghost use Rattle.std.specs.List.{AllByRecursion};
ghost use Rattle.cq_resume.specs.Terms.{FlowsStand, IsNameBefore, Leaves, IsAheadInFlow, flow_goes_on, flow_of, most_classes, most_ports};

use crate::found::Name;
use crate::laned::{Laned, lanes_in_order};
use crate::order::is_before;
use cq_base::{MOST_CLASSES, NoMemory};
use std::alloc::Global;

// Whether the first of two cells of a flow, which arrived before the other, leaves before it.
fn leaves(first: &Name, other: &Name) -> bool
    ensures { IsTrue result ↔ Leaves first.now.queued other.now.queued first.now.sent other.now.sent }
{
    match (first.sent, other.sent) {
        (Some(since), Some(slot)) => since < slot,
        (Some(_), None) => true,
        (None, Some(_)) => false,
        (None, None) => is_before(&first.queued, &other.queued),
    }
}

// An output and a class have a lane: its cells stand by input, and those of one input as they leave.
impl Laned for Name {
    ghost lane_of = { flow_of };

    ghost stands_before = { IsAheadInFlow };

    ghost goes_on = { flow_goes_on };

    fn lane(&self) -> usize {
        let cell = self.queued.cell;
        cell.output as usize * MOST_CLASSES + cell.class as usize
    }

    fn is_ahead(&self, other: &Name) -> bool {
        let (input, other_input) = (self.queued.key.input, other.queued.key.input);
        input < other_input || input == other_input && leaves(self, other)
    }
}

// No cell was seen of any of so many flows.
fn none_seen(alloc: Global, flows: usize) -> Result<Vec<Option<Name>>, NoMemory>
    ensures { IfOk result (λ last. last.items ≡ replicate flows None) }
{
    Ok(vec![in alloc; None; flows]?)
}

/// Whether the cells of each flow were sent in the order of arrival, and those that wait arrived after them and are
/// to be sent in that order. The names stand by input and then by slot of arrival. The error is want of memory.
#[tactic(auto, using(crate::proofs::Lanes::flow_steps))]
pub fn keep_arrival_order(alloc: Global, names: &[Name], ports: u16) -> Result<bool, NoMemory>
    requires ordered { AllPairs IsNameBefore names.now }
    requires ports { ports ≤ most_ports }
    requires names { AllByRecursion (λ name. (name.queued.cell.output < ports)
        × (name.queued.cell.class < most_classes)) names.now }
    ensures { IfOk result (λ holds. IsTrue holds ↔ FlowsStand names.now) }
{
    let flows = ports as usize * MOST_CLASSES;
    let mut last = none_seen(alloc, flows)?;
    Ok(lanes_in_order(names, &mut last))
}
