//! Proposals by one thread: a worked example, in several orders, and drawn offers compared with all their stable
//! matchings.
ghost use Rattle.std.specs.Prelude.{◌≡◌, ◌<◌, length, IfOk, IfSome};
ghost use Rattle.cq_pair.specs.Progress.{IsReached};

use super::opposed::{filled, opposed_offers};
use Outcome::{Displaced, Held, Rejected};
use cq_base::{NoMemory, Port};
use cq_list::InputList;
use cq_pair::{Core, LastFirst, LowestFirst, Order, Outcome};
use cq_prefs::Offers;
use cq_trial_kit::{Draws, list_of};
use std::alloc::Global;

// The place of an input, or None where it is not there.
fn place_among(inputs: &[Port], input: Port) -> Option<usize>
    ensures { IfSome result (λ place. place < length inputs.now) }
{
    inputs.iter().position(|other| *other == input)
}

// What the proposal of an input comes to, or None where it is not free.
fn proposed(core: &mut Core, offers: &Offers, input: Port) -> Option<Outcome>
    requires { IsReached offers.now core.old }
    ensures { IsReached offers.now core.new }
{
    // Its contract tells that the orders of both sides fit together.
    let _ports = offers.ports();
    let place = place_among(core.free(), input)?;
    let input = core.free()[place];
    Some(core.propose(offers, input))
}

// Whether proposals of these inputs come to these outcomes, one after another.
fn come_to(core: &mut Core, offers: &Offers, steps: &[(Port, Outcome)]) -> bool
    requires { IsReached offers.now core.old }
    ensures { IsReached offers.now core.new }
{
    'steps: for (input, outcome) in steps {
        if proposed(core, offers, *input) != Some(*outcome) {
            return false;
        }
    }
    true
}

// The partners of three inputs.
#[tactic(auto, using(cq_pair::proofs::Reached::size_reached))]
fn partners(core: &Core, offers: &Offers) -> [Option<Port>; 3]
    requires { IsReached offers.now core.now }
{
    let mut partners = [None; 3];
    let matching = core.pairs();
    for input in 0..offers.ports().min(3) {
        partners[input as usize] = matching.partner_of(input);
    }
    partners
}

// Whether six proposals come to these outcomes, all that there are, and leave each side with its best partner.
fn settle_in_six(offers: &Offers, steps: &[(Port, Outcome); 6]) -> bool {
    let mut core = Core::begin(offers);
    come_to(&mut core, offers, steps)
        && core.made() == 6
        && core.free().is_empty()
        && partners(&core, offers) == [Some(2), Some(1), Some(0)]
}

const DISPLACING: [(Port, Outcome); 6] = [
    (0, Held),
    (1, Displaced(0)),
    (0, Held),
    (2, Displaced(1)),
    (1, Displaced(0)),
    (0, Held),
];

const REJECTING: [(Port, Outcome); 6] = [
    (2, Held),
    (1, Rejected),
    (0, Rejected),
    (1, Held),
    (0, Rejected),
    (0, Held),
];

// The partners, and the number of proposals, where the order tells who proposes next.
fn settled_in<O: Order>(offers: &Offers, order: &mut O) -> ([Option<Port>; 3], u64) {
    let mut core = Core::begin(offers);
    core.settle(offers, order);
    (partners(&core, offers), core.made())
}

// Whether the last input first, and the lowest first, come to the same partners by as many proposals.
fn settle_in_each_order(offers: &Offers) -> bool {
    let settled = ([Some(2), Some(1), Some(0)], 6);
    settled_in(offers, &mut LastFirst) == settled && settled_in(offers, &mut LowestFirst) == settled
}

// Whether outputs keep the best and displace the others, whoever proposes next.
fn settle_in_all_ways(alloc: Global) -> Result<bool, NoMemory> {
    let offers = opposed_offers(alloc, 3)?;
    let settle = settle_in_six(&offers, &DISPLACING)
        && settle_in_six(&offers, &REJECTING)
        && settle_in_each_order(&offers);
    drop(offers);
    Ok(settle)
}

#[test]
fn outputs_keep_the_best_whoever_proposes_next(rt: HostRuntime) {
    assert!(rt; settle_in_all_ways(rt.alloc()) == Ok(true));
}

// The list of an input with one to three drawn offers.
fn drawn_list(alloc: Global, drawn: &mut Draws, input: Port) -> Result<InputList, NoMemory>
    ensures { IfOk result (λ list. list.outputs ≡ 3) }
{
    let cells = [
        (drawn.word() % 3, drawn.word() as u128),
        (drawn.word() % 3, drawn.word() as u128),
        (drawn.word() % 3, drawn.word() as u128),
    ];
    list_of(alloc, input, 3, &cells)
}

// Offers of three ports, as drawn.
fn drawn_offers(alloc: Global, drawn: &mut Draws) -> Result<Offers, NoMemory> {
    let mut lists = Vec::new(alloc);
    'lists: for input in 0..3 {
        lists.push(drawn_list(alloc, drawn, input)?)?;
    }
    filled(alloc, 3, &lists)
}

// The partner that a number stands for.
fn partner(code: u16) -> Option<Port> {
    match code % 4 {
        3 => None,
        output => Some(output),
    }
}

// How far down its order an input's partner stands: behind all outputs where it has none.
fn place(offers: &Offers, input: Port, partner: Option<Port>) -> u16 {
    match partner {
        None => 64,
        Some(output) => offers.place_of(input, output).unwrap_or(65),
    }
}

// Whether the pairs are offered, and no output is twice.
fn is_matching(offers: &Offers, partners: &[Option<Port>; 3]) -> bool {
    for input in 0..3u16 {
        if place(offers, input, partners[input as usize]) > 64 {
            return false;
        }
        for other in 0..input {
            if partners[input as usize].is_some()
                && partners[input as usize] == partners[other as usize]
            {
                return false;
            }
        }
    }
    true
}

// Whether an output has a partner that it prefers to the one of this position.
fn has_better_input(
    offers: &Offers,
    partners: &[Option<Port>; 3],
    output: Port,
    position: u16,
) -> bool {
    for input in 0..3u16 {
        if partners[input as usize] == Some(output) {
            return offers
                .position_of(output, input)
                .is_some_and(|held| held <= position);
        }
    }
    false
}

// Whether an input and an output are offered to each other and prefer each other to their partners.
fn is_blocking(offers: &Offers, partners: &[Option<Port>; 3], input: Port, output: Port) -> bool
    requires { input < 3 }
{
    match (
        offers.place_of(input, output),
        offers.position_of(output, input),
    ) {
        (Some(at), Some(position)) => {
            at < place(offers, input, partners[input as usize])
                && !has_better_input(offers, partners, output, position)
        }
        _ => false,
    }
}

fn is_stable(offers: &Offers, partners: &[Option<Port>; 3]) -> bool {
    if !is_matching(offers, partners) {
        return false;
    }
    for input in 0..3u16 {
        for output in 0..3u16 {
            if is_blocking(offers, partners, input, output) {
                return false;
            }
        }
    }
    true
}

// Whether no input has a better partner in the other matching.
fn is_no_worse(offers: &Offers, partners: &[Option<Port>; 3], others: &[Option<Port>; 3]) -> bool {
    for input in 0..3u16 {
        let at = place(offers, input, partners[input as usize]);
        if place(offers, input, others[input as usize]) < at {
            return false;
        }
    }
    true
}

// Whether some other matching of the offers is stable, and whether all of them are no better for any input.
fn other_stable(offers: &Offers, settled: &[Option<Port>; 3]) -> (bool, bool) {
    let mut some = false;
    let mut all_no_better = true;
    for code in 0..64u16 {
        let other = [partner(code), partner(code / 4), partner(code / 16)];
        if other != *settled && is_stable(offers, &other) {
            some = true;
            all_no_better = all_no_better && is_no_worse(offers, settled, &other);
        }
    }
    (some, all_no_better)
}

// Whether drawn offers settle at the best of all their stable matchings. Notes where there are several.
fn settle_at_best(
    alloc: Global,
    drawn: &mut Draws,
    some_have_several: &mut bool,
) -> Result<bool, NoMemory> {
    let offers = drawn_offers(alloc, drawn)?;
    let (settled, _) = settled_in(&offers, &mut LastFirst);
    let (several, best) = other_stable(&offers, &settled);
    *some_have_several = *some_have_several || several;
    let is_best = best && is_stable(&offers, &settled);
    drop(offers);
    Ok(is_best)
}

// Whether they do each of 40 times, and some of them have several.
fn all_settle_at_best(alloc: Global) -> Result<bool, NoMemory> {
    let mut drawn = Draws::from_seed(1);
    let mut some_have_several = false;
    for _ in 0..40 {
        if !settle_at_best(alloc, &mut drawn, &mut some_have_several)? {
            return Ok(false);
        }
    }
    Ok(some_have_several)
}

#[test]
fn drawn_offers_settle_at_the_best_of_all_stable_matchings(rt: HostRuntime) {
    assert!(rt; all_settle_at_best(rt.alloc()) == Ok(true));
}
