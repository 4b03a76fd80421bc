//! What arrives slot after slot.
ghost use Rattle.std.specs.Prelude.{◌≡◌, ◌≤◌, ◌↔◌, IsTrue, length};
ghost use Rattle.cq_cells.specs.Terms.{no_arrivals, most_ports, arriving, StandBelow, AreOwn, all_of};

use crate::line::Line;
use crate::nearby::Nearby;
use cq_base::{Arrivals, MOST_PORTS, Port, Slot};
use std::marker::Model;

/// The cells that arrive in a slot, in places that are filled anew for the next one, so that no array is made or copied
/// in a slot. Contracts see the cells.
///
/// It keeps below which input they stand, and where those of the next slot are looked for first.
#[derive(Drop)]
pub struct Coming {
    arrivals: Arrivals,
    ports: usize,
    near: Nearby,
}

impl Model for Coming {
    ghost use Rattle.std.specs.Prelude.{List, Option};
    ghost use Rattle.cq_base.specs.declared.cell.Cell.{Cell};
    ghost use Rattle.cq_cells.specs.Coming.{StandBelow};

    ghost Value = { List (Option Cell) };

    ghost view = { λ a. a.arrivals };

    ghost invariant = { λ a. StandBelow a.ports a.arrivals };
}

// No cell stands at any place. It is made apart from all callers, so that none of them has room for it on its stack.
#[inline(never)]
fn clear(arrivals: &mut Arrivals)
    ensures { arrivals.new ≡ no_arrivals }
{
    *arrivals = Arrivals::none();
}

// No cell stands from the wanted number of inputs on.
fn make_ready(arrivals: &mut Arrivals, ports: usize, wanted: usize)
    requires { StandBelow ports arrivals.old }
    ensures { StandBelow wanted arrivals.new }
{
    if ports == wanted {
        return;
    }
    clear(arrivals);
}

// The cells that arrive in the slot come to the inputs of these lines, in place of those that stood there.
#[tactic(auto, using(crate::proofs::Owned::all_filled, crate::proofs::Owned::still_stand))]
fn come(lines: &[Line], slot: Slot, near: &mut Nearby, arrivals: &mut Arrivals)
    requires few { length lines.now ≤ most_ports }
    requires own { AreOwn 0 lines.now }
    requires stand { StandBelow (length lines.now) arrivals.old }
    ensures cells { arrivals.new ≡ arriving (all_of lines.now) slot }
    ensures stand { StandBelow (length lines.now) arrivals.new }
{
    'lines: for (input, line) in lines.iter().enumerate() {
        let cell = line.cell_near(slot, near.of_input(input));
        near.looked(cell);
        arrivals.put(input as Port, cell);
    }
}

// Whether no cell stands at any place, where none stands from this number of inputs on.
fn none_stand(arrivals: &Arrivals, ports: usize) -> bool
    requires { StandBelow ports arrivals.now }
    ensures { IsTrue result ↔ (arrivals.now ≡ no_arrivals) }
{
    'inputs: for input in 0..ports.min(MOST_PORTS) as Port {
        if arrivals.at(input).is_some() {
            return false;
        }
    }
    true
}

impl Coming {
    /// No cell has come to any input.
    pub fn none() -> Coming
        ensures { result ≡ no_arrivals }
    {
        let arrivals = Arrivals::none();
        Coming {
            arrivals,
            ports: 0,
            near: Nearby::nowhere(),
        }
    }

    /// The cells.
    pub fn arrivals(&self) -> &Arrivals
        ensures { result.now ≡ self.now }
    {
        &self.arrivals
    }

    /// Whether no cell has come to any input. It asks only those inputs at which a cell may stand.
    pub fn is_empty(&self) -> bool
        ensures { IsTrue result ↔ (self.now ≡ no_arrivals) }
    {
        none_stand(&self.arrivals, self.ports)
    }

    /// Where the cells of the next slot are looked for first.
    pub(crate) fn near(&self) -> &Nearby {
        &self.near
    }

    /// The cells that arrive in the slot at the inputs of these lines come in place of those that stand there.
    pub(crate) fn fill(&mut self, lines: &[Line], slot: Slot)
        requires few { length lines.now ≤ most_ports }
        requires own { AreOwn 0 lines.now }
        ensures { self.new ≡ arriving (all_of lines.now) slot }
    {
        let ports = lines.len();
        make_ready(&mut self.arrivals, self.ports, ports);
        self.ports = ports;
        come(lines, slot, &mut self.near, &mut self.arrivals);
    }
}
