//! The pair that shows that a matching is not stable.
//!
//! It is looked for in the orders of the first cells, so that no list is read again: for each input among the outputs
//! that it prefers to its partner, which are few where most have one of their first choices.
ghost use Rattle.std.specs.Prelude.{◌≡◌, ◌<◌, ◌≤◌, ◌↔◌, ℕ, IfNone, IfSome, IsTrue, length, take};
ghost use Rattle.cq_audit.specs.Terms.{AreOffers, IsOffered, outputs_of, ports, position_of, HasBetterInput, partner_place, IsBlocking, IsFirstBlocking};

use crate::pairs::Pairs;
use cq_base::Port;
use cq_prefs::Offers;

// Whether an output prefers the one input to the other. It does not where it is offered neither.
fn input_first(offers: &Offers, output: Port, input: Port, other: Port) -> bool
    requires { IsOffered offers.now other output }
    ensures { IsTrue result ↔ (position_of offers.now output input < position_of offers.now output other) }
{
    // Its contract tells that the orders of both sides fit together.
    let _ports = offers.ports();
    match (
        offers.position_of(output, input),
        offers.position_of(output, other),
    ) {
        (Some(position), Some(than)) => position < than,
        _ => false,
    }
}

// Whether an output has a partner that it prefers to an input.
fn has_better_input(offers: &Offers, pairs: &Pairs, output: Port, input: Port) -> bool
    requires output { output < length pairs.now }
    requires offered { IsOffered offers.now input output }
    ensures { IsTrue result ↔ HasBetterInput offers.now pairs.now input output }
{
    pairs
        .input_of(output)
        .is_some_and(|partner| input_first(offers, output, partner, input))
}

// The outputs that an input prefers to its partner: all of its order, where it has none.
fn preferred<'a>(offers: &'a Offers, pairs: &Pairs, input: Port) -> &'a [Port]
    requires input { input < length pairs.now }
    requires ports { length pairs.now ≡ ports offers.now }
    ensures { result.now ≡ take (partner_place offers.now pairs.now input) (outputs_of offers.now input) }
{
    let order = offers.outputs_of(input);
    let partner = pairs.output_of(input);
    match partner.and_then(|output| offers.place_of(input, output)) {
        Some(place) => &order[..place as usize],
        None => order,
    }
}

// The least output with which an input blocks the matching, if there is one. It is one that the input prefers to its
// partner, and which has none that it prefers to the input.
#[tactic(auto, using(crate::proofs::Ahead::in_range, crate::proofs::Ahead::stands))]
fn least_blocking(offers: &Offers, pairs: &Pairs, input: Port) -> Option<Port>
    requires input { input < length pairs.now }
    requires ports { length pairs.now ≡ ports offers.now }
    requires offers { AreOffers offers.now }
    ensures blocks { IfSome result (λ output. IsBlocking offers.now pairs.now input output) }
    ensures least { IfSome result (λ output. (l : ℕ) → IsBlocking offers.now pairs.now input l → output ≤ l) }
    ensures none { IfNone result ((l : ℕ) → IsBlocking offers.now pairs.now input l → ⊥) }
{
    let mut least: Option<Port> = None;
    'outputs: for output in preferred(offers, pairs, input) {
        if least.is_none_or(|than| *output < than)
            && !has_better_input(offers, pairs, *output, input)
        {
            least = Some(*output);
        }
    }
    least
}

/// The first pair, by input and then output, that shows that a matching of these offers is not stable: they are
/// offered to each other and not joined, and neither has a partner that it prefers. None where no pair does.
pub fn first_blocking(offers: &Offers, pairs: &Pairs) -> Option<(Port, Port)>
    requires { length pairs.now ≡ ports offers.now }
    ensures found { IfSome result (λ pair. IsFirstBlocking offers.now pairs.now pair.0 pair.1) }
    ensures none { IfNone result ((i j : ℕ) → IsBlocking offers.now pairs.now i j → ⊥) }
{
    'inputs: for input in 0..offers.ports() {
        if let Some(output) = least_blocking(offers, pairs, input) {
            return Some((input, output));
        }
    }
    None
}
