//! The crossbar: a worked transfer of three inputs.
ghost use Rattle.std.specs.Prelude.{◌≡◌, ◌≤◌, ◌∷◌, [], IfOk, None, Some, length};
ghost use Rattle.cq_prefs.specs.FirstCells.{HasCellFor};
ghost use Rattle.cq_list_trials.specs.Crossing.{HaveRoomToCross, HaveToCross};

use cq_base::{NoMemory, Port, Room, Transfer};
use cq_list::InputList;
use cq_prefs::Matching;
use cq_trial_kit::{list_of, waiting};
use cq_urgency::OutputBuffer;
use cq_xbar::transfer;
use std::alloc::Global;

// The list of an input of three, with a cell of rank 0 for each of these outputs (modulo 3), that arrived one after
// another. The first of them that is for the wanted output is there. The error is want of memory, or that no such cell
// is there.
fn three_waiting(
    alloc: Global,
    input: Port,
    outputs: [Port; 3],
    wanted: Port,
) -> Result<InputList, NoMemory>
    ensures { IfOk result (λ list. HasCellFor list.cells wanted) }
{
    let cells = [
        (outputs[0] % 3, 0),
        (outputs[1] % 3, 0),
        (outputs[2] % 3, 0),
    ];
    let list = list_of(alloc, input, 3, &cells)?;
    match list.front_for(wanted) {
        Some(_) => Ok(list),
        None => Err(NoMemory),
    }
}

// The lists of three inputs, of which the first has a cell for output 1, and the last one for output 0.
fn three_lists(alloc: Global) -> Result<[InputList; 3], NoMemory>
    ensures { IfOk result (λ lists. HaveToCross lists) }
{
    Ok([
        three_waiting(alloc, 0, [0, 1, 1], 1)?,
        three_waiting(alloc, 1, [2, 1, 0], 2)?,
        three_waiting(alloc, 2, [0, 2, 0], 0)?,
    ])
}

// The buffers of three outputs, each with room for a cell.
fn three_buffers(alloc: Global) -> Result<[OutputBuffer; 3], NoMemory>
    ensures { IfOk result (λ buffers. HaveRoomToCross buffers) }
{
    Ok([
        OutputBuffer::new(alloc, 1)?,
        OutputBuffer::new(alloc, 1)?,
        OutputBuffer::new(alloc, 1)?,
    ])
}

// Input 0 is matched with output 1, and input 2 with output 0.
#[tactic(auto, using(cq_prefs::proofs::Pairs::nobody, crate::proofs::Crossing::output_is_free))]
fn two_pairs() -> Matching
    ensures { result ≡ Some 1 ∷ None ∷ Some 0 ∷ [] }
{
    let mut matching = Matching::none(3);
    matching.join(0, 1);
    matching.join(2, 0);
    matching
}

// Transfers these pairs in slot 7, phase 2, into empty buffers.
#[tactic(auto, using(crate::proofs::Crossing::have_cells, crate::proofs::Crossing::keys_are_new, crate::proofs::Crossing::have_room))]
fn cross(lists: &mut [InputList], buffers: &mut [OutputBuffer], note: &mut Room<Transfer>)
    requires lists { HaveToCross lists.old }
    requires buffers { HaveRoomToCross buffers.old }
    requires note { 3 ≤ note.old.spare }
    ensures lists_stay { length lists.new ≡ 3 }
    ensures buffers_stay { length buffers.new ≡ 3 }
{
    transfer(&two_pairs(), lists, buffers, 7, 2, note);
}

// The note of a cell of this input that arrived in a slot, and crossed to an output.
fn noted(input: Port, output: Port, arrived: u32) -> Transfer {
    Transfer {
        slot: 7,
        phase: 2,
        input,
        output,
        id: waiting(input, output, 0, arrived).cell.id,
    }
}

// Whether two cells crossed, and the others are where they were.
fn have_crossed(lists: &[InputList], buffers: &mut [OutputBuffer], note: &Room<Transfer>) -> bool
    requires lists { length lists.now ≡ 3 }
    requires buffers { length buffers.old ≡ 3 }
{
    let crossed = [buffers[0].pop(), buffers[1].pop(), buffers[2].pop()];
    note.items() == [noted(0, 1, 1), noted(2, 0, 0)].as_slice()
        && [lists[0].len(), lists[1].len(), lists[2].len()] == [2, 3, 2]
        && crossed == [Some(waiting(2, 0, 0, 0)), Some(waiting(0, 1, 0, 1)), None]
}

// Whether they cross from these lists into these buffers.
fn they_cross(
    alloc: Global,
    lists: &mut [InputList],
    buffers: &mut [OutputBuffer],
) -> Result<bool, NoMemory>
    requires lists { HaveToCross lists.old }
    requires buffers { HaveRoomToCross buffers.old }
{
    let mut note = Room::new(alloc, 3)?;
    cross(lists, buffers, &mut note);
    Ok(have_crossed(lists, buffers, &note))
}

// Whether they cross from new lists into new buffers.
fn they_cross_anew(alloc: Global) -> Result<bool, NoMemory> {
    let mut buffers = three_buffers(alloc)?;
    let mut lists = three_lists(alloc)?;
    they_cross(alloc, &mut lists, &mut buffers)
}

#[test]
fn matched_inputs_send_their_first_cells_for_their_partners(rt: HostRuntime) {
    assert!(rt; they_cross_anew(rt.alloc()) == Ok(true));
}
