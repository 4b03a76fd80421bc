//! The pairs of a phase, told from both sides.
ghost use Rattle.std.specs.Prelude.{◌≡◌, ◌<◌, ◌≤◌, ℕ, IfNone, IfSome, None, Some, length, replicate};
ghost use Rattle.cq_audit.specs.Terms.{IsFreeOutput, partner_of, with_pair, CanBeJoined, most_ports};

use cq_base::Port;
use cq_prefs::Matching;
use std::marker::Model;

/// Pairs of an input and an output in which no port is twice on one side. Contracts see the partner of each input,
/// if it has one; that of an output is found as fast.
#[derive(Drop)]
pub struct Pairs {
    by_input: Matching,
    by_output: Matching,
}

impl Model for Pairs {
    ghost use Rattle.cq_prefs.specs.Pairing.{Partners};
    ghost use Rattle.cq_audit.specs.Pairs.{AreMirrored};

    ghost Value = { Partners };

    ghost view = { λ a. a.by_input };

    ghost invariant = { λ a. AreMirrored a.by_input a.by_output };
}

impl Pairs {
    /// No pair, over so many inputs and as many outputs.
    #[tactic(auto, using(cq_prefs::proofs::Pairs::nobody))]
    pub fn none(ports: u16) -> Pairs
        requires { ports ≤ most_ports }
        ensures { result ≡ replicate ports None }
    {
        Pairs {
            by_input: Matching::none(ports),
            by_output: Matching::none(ports),
        }
    }

    /// The matching of these pairs.
    pub fn matching(&self) -> &Matching
        ensures { result.now ≡ self.now }
    {
        &self.by_input
    }

    /// Joins an input and an output, neither of which has a partner yet. The other pairs stay.
    #[tactic(auto, using(crate::proofs::PhaseExact::join_steps))]
    pub fn join(&mut self, input: Port, output: Port)
        requires { CanBeJoined self.old input output }
        ensures { self.new ≡ with_pair self.old input output }
    {
        self.by_input.join(input, output);
        self.by_output.join(output, input);
    }

    /// The partner of an input, or None where it has none.
    pub fn output_of(&self, input: Port) -> Option<Port>
        requires { input < length self.now }
        ensures { result ≡ partner_of self.now input }
    {
        self.by_input.partner_of(input)
    }

    /// The partner of an output, or None where it has none.
    pub fn input_of(&self, output: Port) -> Option<Port>
        requires { output < length self.now }
        ensures partner { IfSome result (λ input. partner_of self.now input ≡ Some output) }
        ensures only { IfSome result (λ input. (k : ℕ) → partner_of self.now k ≡ Some output → k ≡ input) }
        ensures free { IfNone result (IsFreeOutput self.now output) }
    {
        self.by_output.partner_of(output)
    }
}
