//! The cells that arrive in one slot.
//!
//! A line carries one cell a slot, so at most one cell arrives at each input. `Arrivals` hands them
//! from the schedule to a switch, with a place for each input that a switch may have.
ghost use Rattle.std.specs.Prelude.{◌≡◌, ◌<◌, IfSome, slice_set};
ghost use Rattle.cq_base.specs.Arrivals.{AreArrivals, arrival_at, no_arrivals, with_arrival};
ghost use Rattle.cq_base.specs.Limits.{most_ports};

use crate::{Cell, MOST_PORTS, Port};
use std::marker::Model;

/// The cells that arrive in one slot, at most one at each of 64 inputs.
#[derive(Clone, Copy)]
pub struct Arrivals {
    cells: [Option<Cell>; MOST_PORTS],
}

impl Model for Arrivals {
    ghost use Rattle.std.specs.Prelude.{List, Option};
    ghost use Rattle.cq_base.specs.declared.cell.Cell.{Cell};
    ghost use Rattle.cq_base.specs.Arrivals.{AreArrivals};

    ghost Value = { List (Option Cell) };

    ghost view = { λ a. a.cells };

    ghost invariant = { λ a. AreArrivals a.cells };

    ghost inverse = { λ cells. record { cells = cells } };
}

impl Arrivals {
    /// No cell has come to any input.
    #[tactic(auto, using(crate::proofs::Places::no_arrivals_are))]
    pub fn none() -> Arrivals
        ensures { result ≡ no_arrivals }
    {
        Arrivals {
            cells: [None; MOST_PORTS],
        }
    }

    /// The cell comes to its input, in place of one that was set there before. The other inputs keep
    /// theirs.
    pub fn set(&mut self, input: Port, cell: Cell)
        requires place { input < most_ports }
        requires own { cell.id.input ≡ input }
        ensures { self.new ≡ with_arrival self.old input cell }
    {
        self.cells[input as usize] = Some(cell);
    }

    /// A cell comes to its input or none does, in place of what was there before. The other inputs keep theirs. So the
    /// places are filled anew slot after slot, and no other arrivals are made.
    #[tactic(auto, using(crate::proofs::Places::put_are))]
    pub fn put(&mut self, input: Port, cell: Option<Cell>)
        requires place { input < most_ports }
        requires own { IfSome cell (λ cell. cell.id.input ≡ input) }
        ensures { self.new ≡ slice_set self.old input cell }
    {
        self.cells[input as usize] = cell;
    }

    /// The cell that came to the input, or None where none did, as at 64 and above.
    pub fn at(&self, input: Port) -> Option<Cell>
        ensures answer { result ≡ arrival_at self.now input }
        ensures own { IfSome result (λ cell. cell.id.input ≡ input) }
        ensures arrivals { AreArrivals self.now }
    {
        self.cells.get(input as usize).copied().flatten()
    }
}
