//! Whether a state is one of a switch of this shape.
ghost use Rattle.std.specs.Prelude.{◌≡◌, ◌↔◌, ◌≤◌, IsTrue, length};
ghost use Rattle.cq_resume.specs.Terms.{AreSized, HasShape, IsHeadOf, switch_of, machine_of, machines_of, most_classes};

use cq_base::{ClassRow, Kind, LEVELS, Sequence, Setup};
use cq_cells::Schedule;
use cq_route::Tables;
use cq_state::State;

// How many numbers the rank state of an output of this kind has.
fn width_of(kind: Kind, classes: &[ClassRow]) -> usize
    requires { length classes.now ≤ most_classes }
    ensures { result ≡ (machine_of kind classes.now).size }
{
    match kind {
        Kind::FirstCome | Kind::Priority => 0,
        Kind::Fair => classes.len() + LEVELS,
    }
}

// Whether each rank state has as many numbers as its output's.
#[tactic(auto, using(crate::proofs::Cut::size_steps))]
fn are_sized(setup: &Setup, ranks: &[Sequence<u128>]) -> bool
    requires few { length setup.now.classes ≤ most_classes }
    requires as_many { length ranks.now ≡ length setup.now.kinds }
    ensures { IsTrue result ↔ AreSized (machines_of setup.now) ranks.now }
{
    let kinds = setup.kinds.as_slice();
    let classes = setup.classes.as_slice();
    'outputs: for output in 0..ranks.len() {
        if ranks[output].as_slice().len() != width_of(kinds[output], classes) {
            return false;
        }
    }
    true
}

// Whether the first lines of the state tell of as many ports and classes as the tables, and of the stamp and of as
// many cells as the schedule.
fn has_head(state: &State, tables: &Tables, schedule: &Schedule) -> bool
    ensures { IsTrue result ↔ IsHeadOf (switch_of tables.now schedule.now) state.now.head }
{
    state.head.ports as usize == tables.setup.kinds.as_slice().len()
        && state.head.classes as usize == tables.setup.classes.as_slice().len()
        && state.head.t0 == schedule.t0()
        && state.head.total == schedule.total()
}

/// Whether the state, which has a rank state for each of its ports, tells of as many ports and classes as the tables,
/// of the stamp and of as many cells as the schedule, and each rank state has as many numbers as its output's.
pub fn has_shape(state: &State, tables: &Tables, schedule: &Schedule) -> bool
    requires few { length tables.now.setup.classes ≤ most_classes }
    requires told { length state.now.ranks ≡ state.now.head.ports }
    ensures { IsTrue result ↔ HasShape (switch_of tables.now schedule.now) state.now }
{
    has_head(state, tables, schedule) && are_sized(&tables.setup, state.ranks.as_slice())
}
