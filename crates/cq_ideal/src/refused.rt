//! What is refused at an output.
ghost use Rattle.std.specs.Prelude.{◌≡◌, ◌+◌, ◌<◌, ◌≤◌, ◌^◌, ◌∷◌, IfOk, [], length};
ghost use Rattle.cq_ideal.specs.Terms.{CanCount, refused_counts, with_cells, with_refused, most_ports};

use cq_base::{Cell, NoMemory, Port};
use std::alloc::Global;

/// How many packets and cells were refused at an output that has a limit.
#[derive(Clone, Copy, Debug, PartialEq, Eq)]
pub struct Refused {
    /// The output.
    pub output: Port,
    /// So many cells fill it: a packet is refused whole where the output holds as many or more as the packet's
    /// first cell arrives.
    pub limit: u64,
    /// How many packets were refused.
    pub packets: u64,
    /// How many cells they had.
    pub cells: u64,
}

/// The counts of the outputs that have a limit, in order, while nothing was refused yet. The error is want of memory.
#[tactic(auto, using(std::proofs::lemmas::Iterator::items_from_collect), unfolding(crate::specs::Refused::refused_counts, crate::specs::Refused::cells_refused, crate::specs::Refused::packets_refused))]
pub fn none_refused(alloc: Global, limits: &[Option<u64>]) -> Result<Vec<Refused>, NoMemory>
    requires { length limits.now ≤ most_ports }
    ensures { IfOk result (λ refused. refused.items ≡ refused_counts limits.now []) }
{
    let none_at = |(output, limit): (usize, &Option<u64>)| {
        limit.map(|limit| Refused {
            output: output as Port,
            limit,
            packets: 0,
            cells: 0,
        })
    };
    let refused = limits
        .iter()
        .enumerate()
        .filter_map(none_at)
        .collect(alloc)?;
    Ok(refused)
}

// A refused cell is added to the count of an output, if it is for that output.
#[tactic(auto, using(crate::proofs::Counting::add_cell_steps))]
fn add_cell(count: &mut Refused, cell: Cell)
    requires packets { count.old.packets + 1 < 2 ^ 64 }
    requires cells { count.old.cells + 1 < 2 ^ 64 }
    ensures { count.new ≡ with_cells (cell ∷ []) count.old }
{
    if count.output != cell.output {
        return;
    }
    count.packets += if cell.id.index == 0 { 1 } else { 0 };
    count.cells += 1;
}

/// A refused cell is added to the count of its output, where that has one: it is a cell more, and a packet more where
/// it is a first cell.
#[tactic(auto, using(crate::proofs::Counting::can_count_here, crate::proofs::Counting::tallied_next))]
pub fn count_refused(refused: &mut [Refused], cell: Cell)
    requires { CanCount 1 refused.old }
    ensures { refused.new ≡ with_refused (cell ∷ []) refused.old }
{
    'outputs: for place in 0..refused.len() {
        add_cell(&mut refused[place], cell);
    }
}
