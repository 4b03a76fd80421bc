//! The slack of the cells that wait at inputs.
ghost use Rattle.std.specs.Prelude.{◌≡◌, ◌↔◌, ◌==◌, ◌<◌, AllPairs, IsTrue, filter, length};
ghost use Rattle.std.specs.List.{AllByRecursion};
ghost use Rattle.cq_resume.specs.Terms.{IsRising, BuffersStand, HasRoom, IsNoLaterInput, SlackStands, cushion_in};

use crate::between::between;
use cq_base::{Port, Queued};
use cq_urgency::count_before;

// The cells for one output, of cells that stand by output.
fn cells_for(buffered: &[Queued], output: Port) -> &[Queued]
    requires { BuffersStand buffered.now }
    ensures { result.now ≡ filter (λ q. q.cell.output == output) buffered.now }
{
    between(
        buffered,
        |queued| queued.cell.output <= output,
        |queued| queued.cell.output < output,
    )
}

/// The cells of one output's buffer, of cells that stand by output and then by their keys.
pub fn buffer_at(buffered: &[Queued], output: Port) -> &[Queued]
    requires { BuffersStand buffered.now }
    ensures cells { result.now ≡ filter (λ q. q.cell.output == output) buffered.now }
    ensures rising { IsRising result.now }
{
    cells_for(buffered, output)
}

/// The cells of one input's list, of cells that stand by input.
pub fn list_at(listed: &[Queued], input: Port) -> &[Queued]
    requires { AllPairs IsNoLaterInput listed.now }
    ensures { result.now ≡ filter (λ q. q.key.input == input) listed.now }
{
    between(
        listed,
        |queued| queued.key.input <= input,
        |queued| queued.key.input < input,
    )
}

// How many cells of its output's buffer are more urgent, where each buffer stands in order.
#[tactic(auto, using(crate::proofs::Cut::filter_both))]
fn cushion_of(buffered: &[Queued], queued: Queued) -> usize
    requires { BuffersStand buffered.now }
    ensures { result ≡ length (cushion_in buffered.now queued) }
{
    count_before(buffer_at(buffered, queued.cell.output), queued.key)
}

// Whether each cell of one list has more cells in its cushion than stand ahead of it.
#[tactic(auto, using(crate::proofs::Lanes::room_steps))]
fn list_has_room(list: &[Queued], buffered: &[Queued]) -> bool
    requires { BuffersStand buffered.now }
    ensures { IsTrue result ↔ HasRoom buffered.now list.now }
{
    'places: for ahead in 0..list.len() {
        if cushion_of(buffered, list[ahead]) <= ahead {
            return false;
        }
    }
    true
}

/// Whether each cell of the lists of so many ports has slack 1 at least, where lists stand by input and buffers stand
/// in order.
pub fn have_slack(listed: &[Queued], buffered: &[Queued], ports: u16) -> bool
    requires lists { AllPairs IsNoLaterInput listed.now }
    requires inputs { AllByRecursion (λ q. q.key.input < ports) listed.now }
    requires buffers { BuffersStand buffered.now }
    ensures { IsTrue result ↔ SlackStands listed.now buffered.now }
{
    'inputs: for input in 0..ports {
        if !list_has_room(list_at(listed, input), buffered) {
            return false;
        }
    }
    true
}
