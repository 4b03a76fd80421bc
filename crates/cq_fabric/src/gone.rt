//! What the outputs send in a slot.
ghost use Rattle.std.specs.Prelude.{◌≡◌, ◌<◌, ◌≤◌, None, Some, drop, length, map, replicate, slice_index_or, slice_set, take};
ghost use Rattle.cq_fabric.specs.Terms.{front_of, most_ports, popped};

use cq_base::{MOST_PORTS, Port, Queued};
use cq_urgency::OutputBuffer;
use std::marker::Model;

/// The cell that each output sent in a slot, if it sent one, in places that are filled anew for the next slot. So no
/// array is made or copied in a slot. Contracts see the 64 places.
#[derive(Drop)]
pub struct Gone {
    places: [Option<Queued>; MOST_PORTS],
}

impl Model for Gone {
    ghost use Rattle.std.specs.Prelude.{◌≡◌, List, Option, length};
    ghost use Rattle.cq_base.specs.declared.cell.Queued.{Queued};
    ghost use Rattle.cq_base.specs.Limits.{most_ports};

    ghost Value = { List (Option Queued) };

    ghost view = { λ a. a.places };

    ghost invariant = { λ a. length a.places ≡ most_ports };
}

// The first cell of each buffer leaves it, and comes to the place of its output.
fn pop_each(buffers: &mut [OutputBuffer], gone: &mut [Option<Queued>; MOST_PORTS])
    requires few { length buffers.old ≤ most_ports }
    requires places { length gone.old ≡ most_ports }
    ensures places { length gone.new ≡ most_ports }
    ensures gone { take (length buffers.old) gone.new ≡ map front_of buffers.old }
    ensures others { drop (length buffers.old) gone.new ≡ drop (length buffers.old) gone.old }
    ensures buffers { buffers.new ≡ map popped buffers.old }
{
    'outputs: for output in 0..buffers.len() {
        gone[output] = buffers[output].pop();
    }
}

impl Gone {
    /// No output sent a cell.
    pub fn none() -> Gone
        ensures { result ≡ replicate most_ports None }
    {
        Gone {
            places: [None; MOST_PORTS],
        }
    }

    /// None of so many outputs sent a cell. The places behind them stay as they were.
    pub fn clear(&mut self, outputs: u16)
        requires { outputs ≤ most_ports }
        ensures none { take outputs self.new ≡ replicate outputs None }
        ensures others { drop outputs self.new ≡ drop outputs self.old }
    {
        self.places[..outputs as usize].fill(None);
    }

    /// What an output sent, if it sent a cell.
    pub fn at(&self, output: Port) -> Option<Queued>
        requires { output < most_ports }
        ensures { result ≡ slice_index_or self.now output None }
    {
        self.places[output as usize]
    }

    /// An output sent this cell.
    pub fn put(&mut self, output: Port, queued: Queued)
        requires { output < most_ports }
        ensures { self.new ≡ slice_set self.old output (Some queued) }
    {
        self.places[output as usize] = Some(queued);
    }

    /// What each of so many outputs sent.
    pub fn of_outputs(&self, outputs: u16) -> &[Option<Queued>]
        requires { outputs ≤ most_ports }
        ensures { result.now ≡ take outputs self.now }
    {
        &self.places[..outputs as usize]
    }

    /// The first cell of each buffer leaves it, and comes to the place of its output.
    pub(crate) fn take_from(&mut self, buffers: &mut [OutputBuffer])
        requires { length buffers.old ≤ most_ports }
        ensures gone { take (length buffers.old) self.new ≡ map front_of buffers.old }
        ensures others { drop (length buffers.old) self.new ≡ drop (length buffers.old) self.old }
        ensures buffers { buffers.new ≡ map popped buffers.old }
    {
        pop_each(buffers, &mut self.places);
    }
}
