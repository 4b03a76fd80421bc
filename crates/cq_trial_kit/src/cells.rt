//! Cells that wait, how they come into a list, and lists to which some have come.
ghost use Rattle.std.specs.Prelude.{◌≡◌, ◌<◌, ◌≤◌, ◌^◌, All, IfOk, length};
ghost use Rattle.cq_base.specs.Limits.{most_ports};
ghost use Rattle.cq_trial_kit.specs.Arriving.{IsNewest, HasArrived};

use cq_base::{Cell, CellId, Key, NoMemory, Port, Queued};
use cq_list::InputList;
use std::alloc::Global;

/// A cell of an input for an output, with a rank, that arrived in a slot. Each two in a row are of one packet.
pub fn waiting(input: Port, output: Port, rank: u128, slot: u32) -> Queued
    ensures output { result.cell.output ≡ output }
    ensures slot { result.key.slot ≡ slot }
    ensures input { result.key.input ≡ input }
{
    Queued {
        cell: Cell {
            id: CellId {
                input,
                packet: slot / 2,
                index: slot % 2,
            },
            output,
            class: 0,
            last: true,
            at: 0,
            len: 64,
        },
        key: Key {
            level: 0,
            rank,
            slot: slot as u64,
            input,
        },
    }
}

/// The newest cell goes in, with a cushion that is no less than any place.
#[tactic(auto, using(cq_base::proofs::Lists::other_key_newest, cq_base::proofs::Lists::ahead_of_end, cq_base::proofs::Lists::arrived_newest))]
pub fn arrive(list: &mut InputList, queued: Queued)
    requires { IsNewest queued list.old }
    ensures { HasArrived queued list.old list.new }
{
    let end = list.len();
    list.insert(queued, end);
}

/// The list of an input, to which cells come one after another, each given as its output and its rank.
pub fn list_of(
    alloc: Global,
    input: Port,
    outputs: u16,
    cells: &[(Port, u128)],
) -> Result<InputList, NoMemory>
    requires few { outputs ≤ most_ports }
    requires count { length cells.now < 2 ^ 32 }
    requires cells { All (λ cell. cell.0 < outputs) cells.now }
    ensures outputs { IfOk result (λ list. list.outputs ≡ outputs) }
    ensures len { IfOk result (λ list. length list.cells ≡ length cells.now) }
{
    let mut list = InputList::new(alloc, outputs, cells.len() as u64)?;
    'cells: for slot in 0..cells.len() {
        let (output, rank) = cells[slot];
        arrive(&mut list, waiting(input, output, rank, slot as u32));
    }
    Ok(list)
}
