//! The free inputs in order of number.
ghost use Rattle.std.specs.Prelude.{◌≡◌, ◌↔◌, ◌-◌, ◌<◌, ◌≤◌, IsTrue, [], Some, length, nat_eq, nat_lt, slice_get};
ghost use Rattle.std.specs.List.{IsDistinct, position_or_len};
ghost use Rattle.std.specs.List.Sorted.{IsNonDecreasing};
ghost use Rattle.cq_base.specs.Limits.{most_ports};
ghost use Rattle.cq_prefs.specs.Orders.{inputs_with_offers, ports};
ghost use Rattle.cq_prefs.specs.Renewal.{without};
ghost use Rattle.cq_pair.specs.FreeInputs.{with_input};

use crate::before::place_before;
use arrayvec::ArrayVec;
use cq_base::{MOST_PORTS, Port};
use cq_prefs::Offers;
use std::marker::Model;

/// At most 64 inputs. It takes no memory. Contracts see the list.
#[derive(Drop)]
pub struct FreeInputs {
    inputs: ArrayVec<Port, MOST_PORTS>,
}

impl Model for FreeInputs {
    ghost use Rattle.std.specs.Prelude.{ℕ, List};

    ghost Value = { List ℕ };

    ghost view = { λ a. a.inputs.items };
}

// The place of the first input with a greater number, or the end. The inputs stand in order of number, so halving finds
// it.
fn place_of(inputs: &[Port], input: Port) -> usize
    requires { IsNonDecreasing inputs.now }
    ensures inside { result ≤ length inputs.now }
    ensures place { result ≡ position_or_len (nat_lt input) inputs.now }
{
    inputs.partition_point(|other| *other <= input)
}

// Whether an input is the last of all.
fn is_last(inputs: &[Port], input: Port) -> bool
    ensures { IsTrue result ↔ (slice_get inputs.now (length inputs.now - 1) ≡ Some input) }
{
    inputs.last() == Some(&input)
}

impl FreeInputs {
    /// No input.
    pub fn none() -> FreeInputs
        ensures { result ≡ [] }
    {
        FreeInputs {
            inputs: ArrayVec::new(),
        }
    }

    /// The inputs that have an offer, in place of those that were there.
    #[tactic(auto, using(crate::proofs::Leaving::fill_steps))]
    pub fn fill(&mut self, offers: &Offers)
        ensures { self.new ≡ inputs_with_offers offers.now (ports offers.now) }
    {
        self.inputs.clear();
        for input in 0..offers.ports() {
            if !offers.outputs_of(input).is_empty() {
                self.inputs.push(input);
            }
        }
    }

    /// Puts an input in, before those of greater numbers.
    #[tactic(auto, using(cq_prefs::proofs::ByKey::put_is))]
    pub fn insert(&mut self, input: Port)
        requires room { length self.old < most_ports }
        requires rising { IsNonDecreasing self.old }
        ensures { self.new ≡ with_input input self.old }
    {
        let place = place_of(self.inputs.as_slice(), input);
        self.inputs.insert(place, input);
    }

    /// Takes an input out. It may be out already. Of the others only those behind it move, and it is looked for from
    /// the last on.
    #[tactic(auto, using(crate::proofs::Leaving::leave_steps))]
    pub fn remove(&mut self, input: Port)
        requires { IsDistinct nat_eq self.old }
        ensures { self.new ≡ without input self.old }
    {
        if is_last(self.inputs.as_slice(), input) {
            self.inputs.pop();
            return;
        }
        if let Some(place) = place_before(self.inputs.as_slice(), self.inputs.len(), input) {
            self.inputs.remove(place);
        }
    }

    /// The inputs.
    pub fn as_slice(&self) -> &[Port]
        ensures { result.now ≡ self.now }
    {
        self.inputs.as_slice()
    }
}
