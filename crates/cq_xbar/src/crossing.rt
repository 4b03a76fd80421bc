//! The transfer of a matching.
ghost use Rattle.std.specs.Prelude.{◌≡◌, ◌<◌, ◌≤◌, Some, length};
ghost use Rattle.cq_base.specs.Cells.{HasOtherKey, first_for};
ghost use Rattle.cq_base.specs.declared.cell.Queued.{Queued};
ghost use Rattle.cq_list.specs.InputList.{cells_of};
ghost use Rattle.cq_urgency.specs.OutputBuffer.{cells_in};
ghost use Rattle.cq_prefs.specs.FirstCells.{HasCellFor};
ghost use Rattle.cq_xbar.specs.Crossbar.{HasTransferred, HaveCells, HaveRoom, KeysAreNew, list_left, with_cell};

use cq_base::{Port, Queued, Room, Slot, Transfer};
use cq_list::InputList;
use cq_prefs::Matching;
use cq_urgency::OutputBuffer;

// The first cell of a list for an output goes over to the buffer of the output, and is the answer.
#[tactic(auto, using(crate::proofs::Turns::with_by))]
fn cross(list: &mut InputList, buffer: &mut OutputBuffer, output: Port) -> Queued
    requires cell { HasCellFor list.old.cells output }
    requires key { (c : Queued) → first_for output list.old.cells ≡ Some c → HasOtherKey c buffer.old.cells }
    requires room { 0 < buffer.old.spare }
    ensures first { first_for output list.old.cells ≡ Some result }
    ensures left { list.new ≡ list_left (Some output) list.old }
    ensures come { buffer.new ≡ with_cell result buffer.old }
{
    let queued = list.take(output).unwrap();
    buffer.put(queued);
    queued
}

/// Transfers a matching. The first cell of each matched input for its partner leaves the input's list and goes into
/// the partner's buffer, and it is noted with the slot and the phase, in the order of the inputs. All other lists
/// and buffers are as before. It takes no memory.
pub fn transfer(
    matching: &Matching,
    lists: &mut [InputList],
    buffers: &mut [OutputBuffer],
    slot: Slot,
    phase: u8,
    note: &mut Room<Transfer>,
)
    requires lists { length lists.old ≡ length matching.now }
    requires buffers { length buffers.old ≡ length matching.now }
    requires cells { HaveCells matching.now (cells_of lists.old) }
    requires keys { KeysAreNew matching.now (cells_of lists.old) (cells_in buffers.old) }
    requires room { HaveRoom matching.now buffers.old }
    requires note { length matching.now ≤ note.old.spare }
    ensures { HasTransferred slot phase matching.now lists.old buffers.old lists.new buffers.new note.old note.new }
{
    for input in 0..matching.ports() {
        if let Some(output) = matching.partner_of(input) {
            let list = &mut lists[input as usize];
            let queued = cross(list, &mut buffers[output as usize], output);
            note.push(Transfer {
                slot,
                phase,
                input,
                output,
                id: queued.cell.id,
            });
        }
    }
}
