//! Proposals, one at a time.
ghost use Rattle.std.specs.Prelude.{◌≡◌, ◌≢◌, ◌↔◌, ◌<◌, ◌≤◌, ◌+◌, ◌*◌, [], length, nat_eq, replicate, IfSome, IsSome, None};
ghost use Rattle.std.specs.List.{IsDistinct};
ghost use Rattle.cq_base.specs.Limits.{most_ports};
ghost use Rattle.cq_prefs.specs.Orders.{IsListed, ports, outputs_of, place_in};
ghost use Rattle.cq_prefs.specs.Pairing.{IsInputBest, partner_of, proposals};
ghost use Rattle.cq_prefs.specs.Proposals.{IsFree, next_place, outcome_of, propose, start};
ghost use Rattle.cq_pair.specs.Progress.{CanTake, IsAsk, IsReached, MovesOn, Parts, ShowsWaiting, Takes, no_progress};

use crate::before::place_before;
use crate::free_inputs::FreeInputs;
use crate::order::Order;
use crate::per_port::PerPort;
use cq_base::Port;
use cq_prefs::{Matching, Offers, Outcome};
use std::marker::Model;

/// Inputs that propose, each down its order, and outputs that keep the best of them. It has a fixed size and
/// takes no memory. Contracts see the positions that the outputs hold, the places where the inputs propose next,
/// the pairs of those who are held, the free inputs, and how many proposals were made.
///
/// An input is free while nobody holds it and somebody in its order has not been asked.
#[derive(Drop)]
pub struct Core {
    positions: PerPort,
    places: PerPort,
    matching: Matching,
    free: FreeInputs,
    made: u64,
}

impl Model for Core {
    ghost use Rattle.cq_pair.specs.Progress.{Progress};

    ghost Value = { Progress };

    ghost view = { λ a. record {
      state = record { positions = a.positions; places = a.places };
      matching = a.matching;
      free = a.free;
      made = a.made;
    } };
}

// The output to which an input proposes, the position that the output holds, and the input's position there if it is
// less.
#[derive(Clone, Copy)]
struct Asked {
    output: Port,
    held: u16,
    ahead: Option<u16>,
}

// The position of an input in an order, if it is less than this one, which is not its own. The first is looked at,
// since most inputs that propose stand there, and then those ahead of this one, the nearest first: an output soon
// holds an input that stands far ahead, or right behind the one that proposes.
#[tactic(auto, using(crate::proofs::Leaving::seen))]
fn position_ahead(order: &[Port], input: Port, held: u16) -> Option<u16>
    requires differ { IsDistinct nat_eq order.now }
    requires few { length order.now ≤ most_ports }
    requires listed { IsListed order.now input }
    requires other { place_in order.now input ≢ held }
    ensures ahead { IsSome result ↔ (place_in order.now input < held) }
    ensures position { IfSome result (λ position. position ≡ place_in order.now input) }
{
    if order[0] == input {
        return Some(0);
    }
    let end = order.len().min(held as usize);
    let place = place_before(order, end, input)?;
    Some(place as u16)
}

// No pair is left, over so many ports. Pairs of as many ports are parted where they stand.
#[tactic(auto, using(crate::proofs::Leaving::part_all_steps))]
fn part_all(matching: &mut Matching, ports: u16)
    requires { ports ≤ most_ports }
    ensures { matching.new ≡ replicate ports None }
{
    if matching.ports() != ports {
        *matching = Matching::none(ports);
        return;
    }
    'inputs: for input in 0..ports {
        matching.part(input);
    }
}

impl Core {
    /// There are no ports, and no proposal was made. What is kept between phases begins as this one.
    pub fn none() -> Core
        ensures { result ≡ no_progress }
    {
        Core {
            positions: PerPort::none(),
            places: PerPort::none(),
            matching: Matching::none(0),
            free: FreeInputs::none(),
            made: 0,
        }
    }

    /// No output holds anybody, and no proposal was made.
    pub fn begin(offers: &Offers) -> Core
        ensures reached { IsReached offers.now result }
        ensures state { result.state ≡ start offers.now }
        ensures made { result.made ≡ 0 }
    {
        let mut core = Core::none();
        core.begin_again(offers);
        core
    }

    /// Begins anew for these offers, in place of whatever stands here: no output holds an input, and no proposal was
    /// made.
    #[tactic(auto, using(crate::proofs::Reached::begin_steps), unfolding(cq_prefs::specs::Proposals::start))]
    pub fn begin_again(&mut self, offers: &Offers)
        ensures reached { IsReached offers.now self.new }
        ensures state { self.new.state ≡ start offers.now }
        ensures made { self.new.made ≡ 0 }
    {
        let ports = offers.ports();
        self.positions.fill(ports, ports);
        self.places.fill(ports, 0);
        part_all(&mut self.matching, ports);
        self.free.fill(offers);
        self.made = 0;
    }

    /// The free inputs in order of number.
    pub fn free(&self) -> &[Port]
        ensures { result.now ≡ self.now.free }
    {
        self.free.as_slice()
    }

    /// Lets a free input propose to the most wanted output that has not yet answered it. The output takes it where
    /// it holds nobody, or an input that it prefers less, which is displaced.
    pub fn propose(&mut self, offers: &Offers, input: Port) -> Outcome
        requires reached { IsReached offers.now self.old }
        requires free { IsFree offers.now self.old.state input }
        ensures reached { IsReached offers.now self.new }
        ensures event { self.new.state ≡ propose offers.now self.old.state input }
        ensures made { self.new.made ≡ self.old.made + 1 }
        ensures outcome { result ≡ outcome_of offers.now self.old.state input }
    {
        let asked = self.asked_by(offers, input);
        self.move_on(offers, input);
        let Some(position) = asked.ahead else {
            return Outcome::Rejected;
        };
        if asked.held == offers.ports() {
            self.take(offers, input, asked.output, position);
            return Outcome::Held;
        }
        let other = offers.inputs_of(asked.output)[asked.held as usize];
        self.part(offers, other);
        self.take(offers, input, asked.output, position);
        Outcome::Displaced(other)
    }

    /// Free inputs propose until nobody is free. `order` says which of them proposes next. What comes of it does
    /// not depend on that: the matching that is best for the inputs, after as many proposals as it has.
    pub fn settle<O: Order>(&mut self, offers: &Offers, order: &mut O)
        requires { IsReached offers.now self.old }
        ensures reached { IsReached offers.now self.new }
        ensures nobody_free { self.new.free ≡ [] }
        ensures best { IsInputBest offers.now self.new.matching }
        ensures proposals { self.new.made ≡ proposals offers.now self.new.matching }
    {
        // Its contract tells that the orders of both sides fit together.
        let _ports = offers.ports();
        while !self.free().is_empty() {
            let chosen = order.choose(self.free());
            let input = self.free()[chosen];
            self.propose(offers, input);
        }
    }

    /// The pairs of each output and the input that it holds.
    pub fn matching(&self) -> Matching
        ensures { result ≡ self.now.matching }
    {
        self.matching
    }

    /// The pairs of each output and the input that it holds, lent and not copied.
    pub fn pairs(&self) -> &Matching
        ensures { result.now ≡ self.now.matching }
    {
        &self.matching
    }

    /// How many proposals were made.
    pub fn made(&self) -> u64
        ensures { result ≡ self.now.made }
    {
        self.made
    }

    // What a free input asks, and how it stands there.
    #[tactic(auto, using(crate::proofs::Reached::asked_steps))]
    fn asked_by(&self, offers: &Offers, input: Port) -> Asked
        requires reached { IsReached offers.now self.now }
        requires free { IsFree offers.now self.now.state input }
        ensures ask { IsAsk offers.now self.now input result.output result.held result.ahead }
        ensures few { ports offers.now ≤ most_ports }
    {
        // Its contract tells that the orders of both sides fit together.
        let _ports = offers.ports();
        let place = self.places.at(input);
        let output = offers.outputs_of(input)[place as usize];
        let held = self.positions.at(output);
        let ahead = position_ahead(offers.inputs_of(output), input, held);
        Asked {
            output,
            held,
            ahead,
        }
    }

    // An input goes on to its next place.
    #[tactic(auto, using(crate::proofs::Waiting::move_steps))]
    fn move_on(&mut self, offers: &Offers, input: Port)
        requires input { input < length self.old.state.places }
        requires known { input < ports offers.now }
        requires left { next_place self.old.state input < length (outputs_of offers.now input) }
        requires few { length (outputs_of offers.now input) ≤ most_ports }
        requires count { self.old.made < most_ports * most_ports }
        requires waiting { ShowsWaiting offers.now self.old }
        ensures { MovesOn offers.now self.old self.new input }
    {
        self.made += 1;
        let next = self.places.at(input) + 1;
        self.places.set(input, next);
        if next as usize == offers.outputs_of(input).len() {
            self.free.remove(input);
        }
    }

    // An input is parted from its partner, and is free if it has an output left.
    #[tactic(auto, using(crate::proofs::Waiting::part_steps))]
    fn part(&mut self, offers: &Offers, input: Port)
        requires input { input < length self.old.state.places }
        requires known { input < ports offers.now }
        requires few { ports offers.now ≤ most_ports }
        requires matching { length self.old.matching ≡ ports offers.now }
        requires partner { partner_of self.old.matching input ≢ None }
        requires waiting { ShowsWaiting offers.now self.old }
        ensures { Parts offers.now self.old self.new input }
    {
        self.matching.part(input);
        let next = self.places.at(input) as usize;
        if next < offers.outputs_of(input).len() {
            self.free.insert(input);
        }
    }

    // An output takes an input that has this position there.
    #[tactic(auto, using(crate::proofs::Waiting::take_steps))]
    fn take(&mut self, offers: &Offers, input: Port, output: Port, position: u16)
        requires { CanTake offers.now self.old input output }
        ensures { Takes offers.now self.old self.new input output position }
    {
        self.positions.set(output, position);
        self.matching.join(input, output);
        // One that has no output left is out already.
        let next = self.places.at(input) as usize;
        if next != offers.outputs_of(input).len() {
            self.free.remove(input);
        }
    }
}
