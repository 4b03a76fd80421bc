//! What the word that an input found comes to.
ghost use Rattle.std.specs.Prelude.{◌≡◌, ◌<◌, ◌+◌, length};
ghost use Rattle.cq_prefs.specs.Orders.{ports, outputs_of, place_of, position_of};
ghost use Rattle.cq_prefs.specs.Proposals.{answer_of, output_at};
ghost use Rattle.cq_ledger.specs.Plays.{IsOtherWord};
ghost use Rattle.cq_ledger.specs.Steps.{hand_after, hand_at};

use cq_base::Port;
use cq_prefs::{Ask, Offers, Outcome};

/// Whose turn it is at a seat: an input, with the place of its next proposal among its offers.
pub(crate) type Hand = Option<(Port, u16)>;

/// A hand with an input at a place, or an empty one where its order ends there.
#[tactic(auto, unfolding(crate::specs::Steps::hand_at))]
pub(crate) fn hand_from(offers: &Offers, input: Port, place: u16) -> Hand
    requires { input < ports offers.now }
    ensures { result ≡ hand_at offers.now input place }
{
    if (place as usize) < offers.outputs_of(input).len() {
        Some((input, place))
    } else {
        None
    }
}

/// What a proposal comes to where the output's word was this one.
#[tactic(auto, unfolding(cq_prefs::specs::Proposals::answer_of))]
pub(crate) fn answered(
    offers: &Offers,
    _input: Port,
    _place: u16,
    asked: Ask,
    found: u64,
) -> Outcome
    requires place { _place < length (outputs_of offers.now _input) }
    requires output { asked.output ≡ output_at offers.now _input _place }
    requires position { asked.position ≡ position_of offers.now asked.output _input }
    requires found { IsOtherWord offers.now _input _place found }
    ensures { result ≡ answer_of offers.now _input _place found }
{
    if found == offers.ports() as u64 {
        return Outcome::Held;
    }
    if found <= asked.position as u64 {
        return Outcome::Rejected;
    }
    Outcome::Displaced(offers.inputs_of(asked.output)[found as usize])
}

/// The hand after a proposal with this outcome.
#[tactic(auto, using(crate::proofs::Hands::hand_steps), unfolding(crate::specs::Steps::hand_after))]
pub(crate) fn hand_next(
    offers: &Offers,
    input: Port,
    place: u16,
    output: Port,
    answer: Outcome,
) -> Hand
    requires place { place < length (outputs_of offers.now input) }
    requires output { output ≡ output_at offers.now input place }
    ensures { result ≡ hand_after offers.now input place answer }
{
    // Its contract tells that the orders of both sides fit together, and that there are 64 ports at most.
    let _ports = offers.ports();
    match answer {
        Outcome::Held => None,
        Outcome::Rejected => hand_from(offers, input, place + 1),
        Outcome::Displaced(other) => hand_behind(offers, other, output),
    }
}

// A hand with an input at the place after an output in its order.
#[tactic(auto, using(crate::proofs::Hands::hand_steps), unfolding(crate::specs::Steps::hand_at))]
fn hand_behind(offers: &Offers, input: Port, output: Port) -> Hand
    ensures { result ≡ hand_at offers.now input (place_of offers.now input output + 1) }
{
    // Its contract tells that the orders of both sides fit together, and that there are 64 ports at most.
    let _ports = offers.ports();
    let place = offers.place_of(input, output)?;
    hand_from(offers, input, place + 1)
}
