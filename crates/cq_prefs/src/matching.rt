//! Matchings of inputs with outputs.
//!
//! A matching is made and read in every phase, so it takes no memory: it is plain data with a place for
//! each of the 64 ports that a switch may have.
ghost use Rattle.std.specs.Prelude.{◌≡◌, ◌<◌, ◌≤◌, ◌↔◌, IsTrue, length, replicate, None};
ghost use Rattle.cq_base.specs.Limits.{most_ports};
ghost use Rattle.cq_prefs.specs.Pairing.{ArePairs, partner_of, with_pair, without_pair, IsFreeInput, IsFreeOutput};

use cq_base::{MOST_PORTS, Port};
use std::marker::Model;

/// Pairs of an input and an output in which no port is twice on one side. Contracts see it as the partner of
/// each input, if it has one.
#[derive(Clone, Copy)]
pub struct Matching {
    ports: u16,
    partners: [Option<Port>; MOST_PORTS],
}

impl Model for Matching {
    ghost use Rattle.std.specs.Prelude.{ℕ, List, Option, None, length, take};
    ghost use Rattle.cq_prefs.specs.Padded.{IsPadded, padded, length_shown, whole_again};
    ghost use Rattle.cq_prefs.specs.Pairing.{ArePairs};

    ghost Value = { List (Option ℕ) };

    ghost view = { λ a. take a.ports a.partners };

    ghost invariant = { λ a. IsPadded None a.ports a.partners × ArePairs (take a.ports a.partners) };

    ghost inverse = { λ m. record { ports = length m; partners = padded None m } };

    ghost inverse_ok = { λ a h. λ i. record { ports = length_shown None a.ports a.partners h.0 i; partners = whole_again None a.ports a.partners h.0 i } };
}

impl Matching {
    /// No pair, over so many inputs and as many outputs.
    pub fn none(ports: u16) -> Matching
        requires { ports ≤ most_ports }
        ensures { result ≡ replicate ports None }
    {
        Matching {
            ports,
            partners: [None; MOST_PORTS],
        }
    }

    /// The number of inputs, and of outputs.
    pub fn ports(&self) -> u16
        ensures value { result ≡ length self.now }
        ensures few { length self.now ≤ most_ports }
        ensures pairs { ArePairs self.now }
    {
        self.ports
    }

    /// Joins an input and an output that have no partner yet. The other pairs stay.
    pub fn join(&mut self, input: Port, output: Port)
        requires input { input < length self.old }
        requires output { output < length self.old }
        requires free_input { IsFreeInput self.old input }
        requires free_output { IsFreeOutput self.old output }
        ensures { self.new ≡ with_pair self.old input output }
    {
        self.partners[input as usize] = Some(output);
    }

    /// Parts an input from its partner, if it has one. The other pairs stay.
    pub fn part(&mut self, input: Port)
        requires { input < length self.old }
        ensures { self.new ≡ without_pair self.old input }
    {
        self.partners[input as usize] = None;
    }

    /// The partner of an input, or None where it has none.
    pub fn partner_of(&self, input: Port) -> Option<Port>
        requires { input < length self.now }
        ensures partner { result ≡ partner_of self.now input }
        ensures pairs { ArePairs self.now }
    {
        self.partners[input as usize]
    }

    /// Whether no input has this output as its partner.
    pub fn has_free(&self, output: Port) -> bool
        ensures { IsTrue result ↔ IsFreeOutput self.now output }
    {
        'inputs: for input in 0..self.ports() {
            if self.partner_of(input) == Some(output) {
                return false;
            }
        }
        true
    }
}
