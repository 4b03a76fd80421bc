//! The levels and the floors of the classes.
ghost use Rattle.std.specs.Prelude.{◌≡◌, ◌↔◌, ◌<◌, ℕ, IsTrue, length, slice_index_or, []};
ghost use Rattle.std.specs.List.{AllByRecursion};
ghost use Rattle.cq_resume.specs.Terms.{machine_at, AreSized, StandsBelow, machine_of, machines_of};

use cq_base::{Class, Kind, Port, Queued, Sequence, Setup};

// The floor of a class at an output whose rank state has these numbers.
fn floor_of(setup: &Setup, kind: Kind, numbers: &[u128], class: Class) -> u128
    requires class { class < length setup.now.classes }
    requires sized { length numbers.now ≡ (machine_of kind setup.now.classes).size }
    ensures { result ≡ (machine_of kind setup.now.classes).floor numbers.now class }
{
    match kind {
        Kind::FirstCome => 0,
        Kind::Priority => setup.classes.as_slice()[class as usize].priority,
        Kind::Fair => numbers[class as usize],
    }
}

fn floor_at(setup: &Setup, ranks: &[Sequence<u128>], output: Port, class: Class) -> u128
    requires output { output < length setup.now.kinds }
    requires class { class < length setup.now.classes }
    requires ranks { length ranks.now ≡ length setup.now.kinds }
    requires sized { AreSized (machines_of setup.now) ranks.now }
    ensures { result ≡ (machine_at (machines_of setup.now) output).floor (slice_index_or ranks.now output []) class }
{
    let kind = setup.kinds.as_slice()[output as usize];
    floor_of(setup, kind, ranks[output as usize].as_slice(), class)
}

// The level of a class, which is the same at every output.
fn level_of(setup: &Setup, class: Class) -> u8
    requires { class < length setup.now.classes }
    ensures { (output : ℕ) → output < length setup.now.kinds →
        result ≡ (machine_at (machines_of setup.now) output).level class }
{
    setup.classes.as_slice()[class as usize].level
}

// Whether the cell is of its class's level, and its rank no greater than the floor of its class.
fn is_below_floor(setup: &Setup, ranks: &[Sequence<u128>], queued: Queued) -> bool
    requires output { queued.cell.output < length setup.now.kinds }
    requires class { queued.cell.class < length setup.now.classes }
    requires ranks { length ranks.now ≡ length setup.now.kinds }
    requires sized { AreSized (machines_of setup.now) ranks.now }
    ensures { IsTrue result ↔ StandsBelow setup.now ranks.now queued }
{
    let cell = queued.cell;
    queued.key.level == level_of(setup, cell.class)
        && queued.key.rank <= floor_at(setup, ranks, cell.output, cell.class)
}

/// Whether each cell is of its class's level, and its rank no greater than the floor of its class.
#[tactic(auto, using(crate::proofs::Cut::serving_steps))]
pub fn are_below_floors(setup: &Setup, ranks: &[Sequence<u128>], cells: &[Queued]) -> bool
    requires ranks { length ranks.now ≡ length setup.now.kinds }
    requires sized { AreSized (machines_of setup.now) ranks.now }
    requires cells { AllByRecursion (λ q. (q.cell.output < length setup.now.kinds)
        × (q.cell.class < length setup.now.classes)) cells.now }
    ensures { IsTrue result ↔ AllByRecursion (StandsBelow setup.now ranks.now) cells.now }
{
    cells.iter().all(|cell| is_below_floor(setup, ranks, *cell))
}
