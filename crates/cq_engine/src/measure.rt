//! The figures of a run, slot by slot.
ghost use Rattle.std.specs.Prelude.{◌≡◌, ℕ, ◌-◌, ◌<◌, ◌^◌, length, map, max, min, slice_get, Some, is_some, if◌then◌else◌};
ghost use Rattle.std.specs.List.{enumerate_from};
ghost use Rattle.cq_base.specs.declared.figures.InputFigures.{InputFigures as OfInput};
ghost use Rattle.cq_base.specs.declared.figures.OutputFigures.{OutputFigures as OfOutput};
ghost use Rattle.cq_engine.specs.Terms.{Queued, list_of, either_by, came_to, IsNewest, arriving_slack, input_counted, output_counted, slack_seen};

use cq_base::{InputFigures, OutputFigures, Queued, Sequence, Slot};
use cq_fabric::Queues;
use cq_ideal::Newcomers;
use std::alloc::Global;

/// Which of the waiting cells a slot looks at for the least slack.
#[derive(Clone, Copy)]
pub enum Look {
    /// Those that arrive: no other has less slack than the least that was seen.
    Arriving,
    /// All: of those that waited before nothing was seen yet.
    All,
}

// What is chosen of two numbers, of which each may be none. Where one is none it is the other.
fn either<F: FnOnce(u64, u64) -> u64>(a: Option<u64>, b: Option<u64>, choose: F) -> Option<u64>
    requires { F.IsAlwaysCallable choose }
    ensures { (f : ℕ → ℕ → ℕ) → ((x y r : ℕ) → F.post choose x y r → r ≡ f x y) → result ≡ either_by f a b }
{
    match (a, b) {
        (None, b) => b,
        (Some(a), None) => Some(a),
        (Some(a), Some(b)) => Some(choose(a, b)),
    }
}

// The lesser of two numbers, of which each may be none.
fn lesser(a: Option<u64>, b: Option<u64>) -> Option<u64>
    ensures { result ≡ either_by min a b }
{
    either(a, b, |a, b| a.min(b))
}

// The greater of two numbers, of which each may be none.
fn greater(a: Option<u64>, b: Option<u64>) -> Option<u64>
    ensures { result ≡ either_by max a b }
{
    either(a, b, |a, b| a.max(b))
}

// The slack of the cell that came to an input, if one did.
fn slack_of(queues: &Queues, input: usize, came: Option<Queued>) -> Option<u64>
    requires input { input < length queues.now.inputs }
    requires output { (c : Queued) → came ≡ Some c → c.cell.output < length queues.now.inputs }
    requires newest { (c : Queued) → came ≡ Some c → IsNewest c (list_of queues.now.inputs input) }
    ensures { result ≡ arriving_slack queues.now input came }
{
    let queued = came?;
    Some(queues.slack_of(input, &queued))
}

// The slack that is seen at an input, if a cell is looked at there.
fn slack_seen(
    alloc: Global,
    look: Look,
    queues: &Queues,
    input: usize,
    came: Option<Queued>,
) -> Option<u64>
    requires input { input < length queues.now.inputs }
    requires output { (c : Queued) → came ≡ Some c → c.cell.output < length queues.now.inputs }
    requires newest { (c : Queued) → came ≡ Some c → IsNewest c (list_of queues.now.inputs input) }
    ensures { result ≡ slack_seen look queues.now input came }
{
    match look {
        Look::Arriving => slack_of(queues, input, came),
        Look::All => queues.least_slack(alloc, input),
    }
}

// The least slack that was seen at an input, with what is seen of it now. None is less than 0, so once that was seen
// none is looked for.
fn least_seen(
    alloc: Global,
    look: Look,
    least: Option<u64>,
    queues: &Queues,
    input: usize,
    came: Option<Queued>,
) -> Option<u64>
    requires input { input < length queues.now.inputs }
    requires output { (c : Queued) → came ≡ Some c → c.cell.output < length queues.now.inputs }
    requires newest { (c : Queued) → came ≡ Some c → IsNewest c (list_of queues.now.inputs input) }
    ensures { result ≡ either_by min least (slack_seen look queues.now input came) }
{
    if let Some(0) = least {
        return least;
    }
    lesser(least, slack_seen(alloc, look, queues, input, came))
}

// How many cells there are: one or none.
fn count_of(queued: Option<Queued>) -> u64
    ensures { result ≡ (if is_some queued then 1 else 0) }
{
    u64::from(queued.is_some())
}

// What was seen of an input, with a slot more.
#[tactic(auto, unfolding(crate::specs::Measuring::input_counted))]
fn input_counted(
    alloc: Global,
    look: Look,
    figures: InputFigures,
    queues: &Queues,
    input: usize,
    came: Option<Queued>,
) -> InputFigures
    requires input { input < length queues.now.inputs }
    requires output { (c : Queued) → came ≡ Some c → c.cell.output < length queues.now.inputs }
    requires newest { (c : Queued) → came ≡ Some c → IsNewest c (list_of queues.now.inputs input) }
    requires count { figures.cells < 2 ^ 64 - 1 }
    ensures { result ≡ input_counted look queues.now input came figures }
{
    InputFigures {
        cells: figures.cells + count_of(came),
        longest: figures.longest.max(queues.len_of(input)),
        slack: least_seen(alloc, look, figures.slack, queues, input, came),
    }
}

// What was seen of an output, with a cell that left it in this slot.
#[tactic(auto, unfolding(crate::specs::Measuring::output_counted))]
fn output_counted(figures: OutputFigures, slot: Slot, gone: Queued) -> OutputFigures
    requires { figures.cells < 2 ^ 64 - 1 }
    ensures { result ≡ output_counted slot (Some gone) figures }
{
    OutputFigures {
        cells: figures.cells + 1,
        wait: greater(figures.wait, Some(slot.saturating_sub(gone.key.slot))),
    }
}

/// Adds the cells that came to the inputs to what was seen of them, once they stand in their lists, and what is seen
/// of the slacks.
#[tactic(auto, using(cq_fabric::proofs::Changed::all_changed))]
pub fn count_inputs(
    alloc: Global,
    look: Look,
    inputs: &mut Sequence<InputFigures>,
    queues: &Queues,
    came: &Newcomers,
)
    requires ports { length inputs.old ≡ length queues.now.inputs }
    requires outputs { (i : ℕ) (c : Queued) → came_to came.now i ≡ Some c → c.cell.output < length queues.now.inputs }
    requires newest { (i : ℕ) (c : Queued) → came_to came.now i ≡ Some c → IsNewest c (list_of queues.now.inputs i) }
    requires counts { (i : ℕ) (x : OfInput) → slice_get inputs.old i ≡ Some x → x.cells < 2 ^ 64 - 1 }
    ensures { inputs.new ≡ map (λ at. input_counted look queues.now at.0 (came_to came.now at.0) at.1)
        (enumerate_from 0 inputs.old) }
{
    'inputs: for input in 0..queues.ports() as usize {
        let counted = input_counted(
            alloc,
            look,
            inputs.as_slice()[input],
            queues,
            input,
            came.at(input),
        );
        inputs.set(input, counted);
    }
}

/// Adds the cells that left the outputs to what was seen of them. Where none left nothing changes.
#[tactic(auto, using(cq_fabric::proofs::Changed::all_changed))]
pub fn count_outputs(outputs: &mut Sequence<OutputFigures>, slot: Slot, gone: &[Option<Queued>])
    requires ports { length outputs.old ≡ length gone.now }
    requires counts { (j : ℕ) (x : OfOutput) → slice_get outputs.old j ≡ Some x → x.cells < 2 ^ 64 - 1 }
    ensures { outputs.new ≡ map (λ at. output_counted slot (came_to gone.now at.0) at.1)
        (enumerate_from 0 outputs.old) }
{
    'outputs: for (output, queued) in gone.iter().enumerate() {
        if let Some(queued) = *queued {
            let counted = output_counted(outputs.as_slice()[output], slot, queued);
            outputs.set(output, counted);
        }
    }
}
