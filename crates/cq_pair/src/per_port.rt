//! A number for each port.
ghost use Rattle.std.specs.Prelude.{◌≡◌, ◌<◌, ◌≤◌, [], length, replicate, slice_index, slice_set};
ghost use Rattle.cq_base.specs.Limits.{most_ports};

use cq_base::{MOST_PORTS, Port};
use std::marker::Model;

/// A number for each of at most 64 ports. It takes no memory. Contracts see the list of the numbers.
#[derive(Drop)]
pub struct PerPort {
    ports: u16,
    numbers: [u16; MOST_PORTS],
}

impl Model for PerPort {
    ghost use Rattle.std.specs.Prelude.{ℕ, ◌≡◌, ◌≤◌, List, length, take};
    ghost use Rattle.cq_base.specs.Limits.{most_ports};

    ghost Value = { List ℕ };

    ghost view = { λ a. take a.ports a.numbers };

    ghost invariant = { λ a. (a.ports ≤ most_ports) × (length a.numbers ≡ most_ports) };
}

impl PerPort {
    /// No port.
    pub fn none() -> PerPort
        ensures { result ≡ [] }
    {
        PerPort {
            ports: 0,
            numbers: [0; MOST_PORTS],
        }
    }

    /// Gives each of so many ports this number, in place of what stood there.
    pub fn fill(&mut self, ports: u16, number: u16)
        requires { ports ≤ most_ports }
        ensures { self.new ≡ replicate ports number }
    {
        self.ports = ports;
        self.numbers.fill(number);
    }

    /// The number of a port.
    pub fn at(&self, port: Port) -> u16
        requires { port < length self.now }
        ensures { result ≡ slice_index self.now port }
    {
        self.numbers[port as usize]
    }

    /// Gives a port another number.
    pub fn set(&mut self, port: Port, number: u16)
        requires { port < length self.old }
        ensures { self.new ≡ slice_set self.old port number }
    {
        self.numbers[port as usize] = number;
    }
}
