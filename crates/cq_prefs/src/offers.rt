//! Who offers a cell to whom, and whom each port prefers.
ghost use Rattle.std.specs.Prelude.{◌≡◌, ◌<◌, ◌≤◌, ◌==◌, ◌↔◌, [], All, IsSome, IfSome, IfOk, None, length, replicate};
ghost use Rattle.std.specs.List.{list_all};
ghost use Rattle.cq_base.specs.Limits.{most_ports};
ghost use Rattle.cq_list.specs.InputList.{cells_of};
ghost use Rattle.cq_prefs.specs.FirstCells.{AreOrdersOf, FirstKeysDiffer, orders_of};
ghost use Rattle.cq_prefs.specs.Renewal.{AreSameWithout};
ghost use Rattle.cq_prefs.specs.Orders.{AreOffers, IsOffered, inputs_with_offers, no_offers, ports, outputs_of, inputs_of, place_of, position_of};
ghost use Rattle.cq_prefs.specs.Pairing.{with_pair};
ghost use Rattle.cq_prefs.specs.Proposals.{output_at};

use crate::Matching;
use crate::by_key::inputs_by_key;
use crate::by_place::order_outputs;
use crate::preference::Preference;
use crate::renewal::{renew_inputs, renew_outputs};
use cq_base::{NoMemory, Port};
use cq_list::InputList;
use std::alloc::Global;
use std::marker::Model;

/// The offers of a switch: whom each input would send to, and from whom each output would take, the most wanted
/// first. Contracts see the orders of both sides. Both show the same pairs, and no order has a port twice.
#[derive(Drop)]
pub struct Offers {
    by_input: Vec<Preference>,
    by_output: Vec<Preference>,
}

impl Model for Offers {
    ghost use Rattle.std.specs.Prelude.{◌≤◌};
    ghost use Rattle.cq_base.specs.Limits.{most_ports};
    ghost use Rattle.cq_prefs.specs.Orders.{Orders, AreOffers, ports};

    ghost Value = { Orders };

    ghost view = { λ a. record { outputs = a.by_input.items; inputs = a.by_output.items } };

    ghost invariant = { λ a.
        let o : Orders = record { outputs = a.by_input.items; inputs = a.by_output.items } in
        AreOffers o × (ports o ≤ most_ports) };
}

/// What an input asks: an output, and the position of the input there.
#[derive(Clone, Copy)]
pub struct Ask {
    /// The output that is asked.
    pub output: Port,
    /// Where the input stands in the order of the output, from 0: the less, the more it is wanted.
    pub position: u16,
}

// So many ports that prefer nobody.
fn no_orders(alloc: Global, ports: u16) -> Result<Vec<Preference>, NoMemory>
    ensures { IfOk result (λ orders. orders.items ≡ replicate ports []) }
{
    Ok(vec![in alloc; Preference::none(); ports as usize]?)
}

impl Offers {
    /// Nothing is offered, over so many inputs and as many outputs. The error is want of memory.
    #[tactic(auto, using(crate::proofs::Places::new_steps))]
    pub fn new(alloc: Global, ports: u16) -> Result<Offers, NoMemory>
        requires { ports ≤ most_ports }
        ensures { IfOk result (λ offers. offers ≡ no_offers ports) }
    {
        Ok(Offers {
            by_input: no_orders(alloc, ports)?,
            by_output: no_orders(alloc, ports)?,
        })
    }

    /// These offers once more. The error is want of memory.
    pub fn copy(&self, alloc: Global) -> Result<Offers, NoMemory>
        ensures { IfOk result (λ offers. offers ≡ self.now) }
    {
        Ok(Offers {
            by_input: Vec::from_slice(alloc, &self.by_input)?,
            by_output: Vec::from_slice(alloc, &self.by_output)?,
        })
    }

    /// The offers of lists of cells, one list for each input and each over as many outputs as there are inputs.
    /// Input i and output j are offered to each other where list i has a cell for j. An input prefers the outputs
    /// in the order of its first cells for them, an output prefers the inputs by the keys of these cells.
    ///
    /// It takes no memory.
    #[tactic(auto, using(crate::proofs::Renewing::fill_steps))]
    pub fn fill(&mut self, lists: &[InputList])
        requires lists { length lists.now ≡ ports self.old }
        requires outputs { All (λ list. list.outputs ≡ ports self.old) lists.now }
        ensures orders { self.new ≡ orders_of (cells_of lists.now) }
        ensures first_cells { FirstKeysDiffer (cells_of lists.now) → AreOrdersOf (cells_of lists.now) self.new }
    {
        order_outputs(&mut self.by_input, lists);
        for output in 0..lists.len() {
            self.by_output[output] = inputs_by_key(lists, output as Port);
        }
    }

    /// The offers of lists in which only the cells of the inputs for their partners have changed: with these pairs
    /// taken out of all orders, the offers are those of the lists.
    ///
    /// Each input that has a partner moves in the order of this partner, and the partner in that of the input. All
    /// other orders are left as they are. It takes no memory.
    pub fn renew(&mut self, lists: &[InputList], changed: &Matching)
        requires lists { length lists.now ≡ ports self.old }
        requires outputs { All (λ list. list.outputs ≡ ports self.old) lists.now }
        requires keys { FirstKeysDiffer (cells_of lists.now) }
        requires ports { length changed.now ≡ ports self.old }
        requires others { AreSameWithout changed.now self.old (orders_of (cells_of lists.now)) }
        ensures orders { self.new ≡ orders_of (cells_of lists.now) }
        ensures first_cells { AreOrdersOf (cells_of lists.now) self.new }
    {
        'inputs: for input in 0..changed.ports() {
            if let Some(output) = changed.partner_of(input) {
                let at = input as usize;
                renew_outputs(&mut self.by_input[at], &lists[at], output);
                renew_inputs(&mut self.by_output[output as usize], lists, output, input);
            }
        }
    }

    /// The offers of lists in which only the cells of one input for one output have changed. Their two orders are all
    /// that is looked at, however many ports there are.
    pub fn renew_pair(&mut self, lists: &[InputList], input: Port, output: Port)
        requires lists { length lists.now ≡ ports self.old }
        requires keys { FirstKeysDiffer (cells_of lists.now) }
        requires input { input < length lists.now }
        requires output { output < length lists.now }
        requires others { AreSameWithout (with_pair (replicate (length lists.now) None) input output) self.old
            (orders_of (cells_of lists.now)) }
        ensures orders { self.new ≡ orders_of (cells_of lists.now) }
        ensures first_cells { AreOrdersOf (cells_of lists.now) self.new }
    {
        let at = input as usize;
        renew_outputs(&mut self.by_input[at], &lists[at], output);
        renew_inputs(&mut self.by_output[output as usize], lists, output, input);
    }

    /// The number of inputs, and of outputs.
    pub fn ports(&self) -> u16
        ensures value { result ≡ ports self.now }
        ensures offers { AreOffers self.now }
        ensures few { ports self.now ≤ most_ports }
    {
        self.by_input.len() as u16
    }

    /// Whether no input has an offer. It looks no further than the first that has one.
    pub fn are_none(&self) -> bool
        ensures { result ≡ list_all (λ order. length order == 0) self.now.outputs }
    {
        self.by_input
            .iter()
            .all(|order| order.as_slice().is_empty())
    }

    /// How many inputs have an offer.
    #[tactic(auto, using(crate::proofs::Offering::few_offers))]
    pub fn offering(&self) -> u16
        ensures count { result ≡ length (inputs_with_offers self.now (ports self.now)) }
        ensures few { result ≤ ports self.now }
    {
        (0..self.ports())
            .filter(|input| !self.outputs_of(*input).is_empty())
            .count() as u16
    }

    /// The outputs for which an input has a cell, the most wanted first.
    pub fn outputs_of(&self, input: Port) -> &[Port]
        requires { input < ports self.now }
        ensures { result.now ≡ outputs_of self.now input }
    {
        self.by_input[input as usize].as_slice()
    }

    /// The inputs that have a cell for an output, the most wanted first.
    pub fn inputs_of(&self, output: Port) -> &[Port]
        requires { output < ports self.now }
        ensures { result.now ≡ inputs_of self.now output }
    {
        self.by_output[output as usize].as_slice()
    }

    /// The place of an output in the order of an input, or None where they are not offered to each other.
    pub fn place_of(&self, input: Port, output: Port) -> Option<u16>
        ensures offered { IsSome result ↔ IsOffered self.now input output }
        ensures place { IfSome result (λ place. place ≡ place_of self.now input output) }
    {
        self.by_input.get(input as usize)?.place_of(output)
    }

    /// The place of an input in the order of an output, or None where they are not offered to each other.
    pub fn position_of(&self, output: Port, input: Port) -> Option<u16>
        ensures offered { IsSome result ↔ IsOffered self.now input output }
        ensures position { IfSome result (λ position. position ≡ position_of self.now output input) }
    {
        self.by_output.get(output as usize)?.place_of(input)
    }

    /// What an input asks by the proposal to the output at a place of its order.
    #[tactic(auto, using(crate::proofs::Places::asked_steps))]
    pub fn asked(&self, input: Port, place: u16) -> Ask
        requires { place < length (outputs_of self.now input) }
        ensures input { input < ports self.now }
        ensures few { ports self.now ≤ most_ports }
        ensures output { result.output ≡ output_at self.now input place }
        ensures position { result.position ≡ position_of self.now result.output input }
        ensures offered { IsOffered self.now input result.output }
        ensures offers { AreOffers self.now }
    {
        // Its contract tells that the orders of both sides fit together, and that there are 64 ports at most.
        let _ports = self.ports();
        let output = self.outputs_of(input)[place as usize];
        let position = self.position_of(output, input).unwrap();
        Ask { output, position }
    }
}
