//! Proposals on shared words: a worked example by two seats and by one, and once with a thread for each seat.
ghost use Rattle.std.specs.Prelude.{◌≡◌, length, IsTrue};
ghost use Rattle.cq_prefs.specs.Orders.{ports};
ghost use Rattle.cq_ledger.specs.Seats.{HasClaimedAll, IsSeatOf};

use super::opposed::{contested_offers, opposed_offers};
use Outcome::{Displaced, Held, Rejected};
use cq_base::{NoMemory, Port};
use cq_ledger::{Ledger, LedgerSeat, Outcome};
use cq_prefs::{Matching, Offers};
use std::alloc::Global;
use std::thread::{Threads, join};

// The answer of a claim, or None where the seat's hand is not empty or the input is no port.
fn claimed(ledger: &Ledger, seat: &mut LedgerSeat, input: Port) -> Option<bool>
    requires seat { IsSeatOf ledger.now seat.old }
    requires ports { ports ledger.now.offers ≡ 3 }
    ensures { IsSeatOf ledger.now seat.new }
{
    if input >= 3 || seat.hand().is_some() {
        return None;
    }
    Some(ledger.claim(seat, input))
}

// What a proposal comes to, or None where the seat's hand is empty.
fn proposed(ledger: &Ledger, seat: &mut LedgerSeat) -> Option<Outcome>
    requires { IsSeatOf ledger.now seat.old }
    ensures { IsSeatOf ledger.now seat.new }
{
    if seat.hand().is_none() {
        return None;
    }
    Some(ledger.propose(seat))
}

// Whether a seat has claimed all three ports.
fn has_claimed_all(seat: &LedgerSeat) -> bool
    requires { ports seat.now.view.offers ≡ 3 }
    ensures { IsTrue result → HasClaimedAll seat.now }
{
    seat.claimed(0) && seat.claimed(1) && seat.claimed(2)
}

// The partners of three inputs.
fn partners(matching: &Matching) -> [Option<Port>; 3]
    requires { length matching.now ≡ 3 }
{
    [
        matching.partner_of(0),
        matching.partner_of(1),
        matching.partner_of(2),
    ]
}

// The partners of three inputs, and the number of proposals.
type Settled = ([Option<Port>; 3], u64);

// Whether a ledger closes with this, where the seat has nothing in its hand and has claimed all ports.
fn closes_with(ledger: Ledger, seat: LedgerSeat, settled: &Settled) -> bool
    requires seat { IsSeatOf ledger seat }
    requires ports { ports ledger.offers ≡ 3 }
{
    if seat.hand().is_some() || !has_claimed_all(&seat) {
        drop(seat);
        drop(ledger);
        return false;
    }
    let phase = ledger.close(seat).phase();
    partners(&phase.matching) == settled.0 && phase.proposals == settled.1
}

// Whether a ledger with two seats closes so, where their hands are empty and they have claimed all ports.
fn both_close_with(
    ledger: Ledger,
    mut seat: LedgerSeat,
    other: LedgerSeat,
    settled: &Settled,
) -> bool
    requires seat { IsSeatOf ledger seat }
    requires other { IsSeatOf ledger other }
    requires ports { ports ledger.offers ≡ 3 }
{
    if seat.hand().is_some() || other.hand().is_some() {
        drop(other);
        drop(seat);
        drop(ledger);
        return false;
    }
    ledger.join(&mut seat, other);
    closes_with(ledger, seat, settled)
}

// The input that a seat claims first, if it does, what its proposal comes to then, and the hand that it leaves.
type Step = (Option<Port>, Outcome, Option<Port>);

// Whether a seat claims the input, if there is one, and has it in its hand.
fn claims(ledger: &Ledger, seat: &mut LedgerSeat, input: Option<Port>) -> bool
    requires seat { IsSeatOf ledger.now seat.old }
    requires ports { ports ledger.now.offers ≡ 3 }
    ensures { IsSeatOf ledger.now seat.new }
{
    if let Some(input) = input {
        return claimed(ledger, seat, input) == Some(true) && seat.hand() == Some(input);
    }
    true
}

// Whether a seat makes these steps, and has nothing in its hand after them.
fn makes_all(ledger: &Ledger, seat: &mut LedgerSeat, steps: &[Step]) -> bool
    requires seat { IsSeatOf ledger.now seat.old }
    requires ports { ports ledger.now.offers ≡ 3 }
    ensures { IsSeatOf ledger.now seat.new }
{
    'steps: for (claim, outcome, hand) in steps {
        if !claims(ledger, seat, *claim)
            || proposed(ledger, seat) != Some(*outcome)
            || seat.hand() != *hand
        {
            return false;
        }
    }
    seat.hand().is_none()
}

// What three inputs come to whose outputs prefer the last of them.
const OPPOSED: Settled = ([Some(2), Some(1), Some(0)], 6);

const WITH_0: [Step; 1] = [(Some(0), Held, None)];

const WITH_1: [Step; 2] = [(Some(1), Displaced(0), Some(0)), (None, Held, None)];

const WITH_2: [Step; 3] = [
    (Some(2), Displaced(1), Some(1)),
    (None, Displaced(0), Some(0)),
    (None, Held, None),
];

// Whether two seats in turn work for inputs 0, 1 and 2, and the first does not get input 1 then.
fn work_in_turn(ledger: &Ledger, a: &mut LedgerSeat, b: &mut LedgerSeat) -> bool
    requires a { IsSeatOf ledger.now a.old }
    requires b { IsSeatOf ledger.now b.old }
    requires ports { ports ledger.now.offers ≡ 3 }
    ensures a { IsSeatOf ledger.now a.new }
    ensures b { IsSeatOf ledger.now b.new }
{
    makes_all(ledger, a, &WITH_0)
        && makes_all(ledger, b, &WITH_1)
        && makes_all(ledger, a, &WITH_2)
        && claimed(ledger, a, 1) == Some(false)
}

// Whether each of the two seats knows what it claimed, and how many proposals it made.
fn know_their_work(a: &LedgerSeat, b: &LedgerSeat) -> bool
    requires a { ports a.now.view.offers ≡ 3 }
    requires b { ports b.now.view.offers ≡ 3 }
{
    let claims = [a.claimed(0), a.claimed(1), a.claimed(2), b.claimed(1)];
    claims == [true, false, true, true] && [a.made(), b.made()] == [4, 2]
}

// Whether two seats that work in turn know their work, and settle the opposed offers.
fn settle_in_turn(alloc: Global, offers: &Offers) -> Result<bool, NoMemory>
    requires { ports offers.now ≡ 3 }
{
    let (ledger, mut a) = Ledger::start(alloc, offers)?;
    let mut b = ledger.split(&mut a);
    let is_worked = work_in_turn(&ledger, &mut a, &mut b) && know_their_work(&a, &b);
    let is_settled = both_close_with(ledger, a, b, &OPPOSED);
    Ok(is_worked && is_settled)
}

// Whether the one seat of a ledger makes these steps, and settles the offers so.
fn settles_alone(
    alloc: Global,
    offers: &Offers,
    steps: &[Step],
    settled: &Settled,
) -> Result<bool, NoMemory>
    requires { ports offers.now ≡ 3 }
{
    let (ledger, mut seat) = Ledger::start(alloc, offers)?;
    let is_worked = makes_all(&ledger, &mut seat, steps);
    let is_settled = closes_with(ledger, seat, settled);
    Ok(is_worked && is_settled)
}

const REJECTED: [Step; 6] = [
    (Some(2), Held, None),
    (Some(1), Rejected, Some(1)),
    (None, Held, None),
    (Some(0), Rejected, Some(0)),
    (None, Rejected, Some(0)),
    (None, Held, None),
];

const EMPTIED: [Step; 3] = [
    (Some(1), Held, None),
    (Some(0), Rejected, None),
    (Some(2), Displaced(1), None),
];

// What three inputs come to of which each has an offer to output 0 alone.
const CONTESTED: Settled = ([None, None, Some(0)], 3);

// Claims the inputs from one on, and after each claim proposes until the hand is empty.
fn work(ledger: &Ledger, mut seat: LedgerSeat, from: Port) -> LedgerSeat
    requires seat { IsSeatOf ledger.now seat }
    requires ports { ports ledger.now.offers ≡ 3 }
    ensures { IsSeatOf ledger.now result }
{
    'turns: for turn in 0..3 {
        claimed(ledger, &mut seat, (from % 3 + turn) % 3);
        propose_all(ledger, &mut seat);
    }
    seat
}

// Proposes until the hand is empty: nine proposals are as many as there can be.
fn propose_all(ledger: &Ledger, seat: &mut LedgerSeat)
    requires { IsSeatOf ledger.now seat.old }
    ensures { IsSeatOf ledger.now seat.new }
{
    'proposals: for _ in 0..9 {
        if proposed(ledger, seat).is_none() {
            break 'proposals;
        }
    }
}

// The work of two seats, each in a thread of its own.
fn worked_by_two<R: Threads>(
    rt: &R,
    ledger: &Ledger,
    a: LedgerSeat,
    b: LedgerSeat,
) -> (LedgerSeat, LedgerSeat)
    requires a { IsSeatOf ledger.now a }
    requires b { IsSeatOf ledger.now b }
    requires ports { ports ledger.now.offers ≡ 3 }
    ensures { IsSeatOf ledger.now result.0 × IsSeatOf ledger.now result.1 }
{
    join(
        rt,
        move || -> LedgerSeat
            requires seat { IsSeatOf ledger.now a }
            requires ports { ports ledger.now.offers ≡ 3 }
            ensures { IsSeatOf ledger.entry.now result }
        { work(ledger, a, 0) },
        move || -> LedgerSeat
            requires seat { IsSeatOf ledger.now b }
            requires ports { ports ledger.now.offers ≡ 3 }
            ensures { IsSeatOf ledger.entry.now result }
        { work(ledger, b, 2) },
    )
}

// Whether two seats, each in a thread of its own, settle the opposed offers.
fn settle_by_two<R: Threads>(rt: &R, alloc: Global, offers: &Offers) -> Result<bool, NoMemory>
    requires { ports offers.now ≡ 3 }
{
    let (ledger, mut a) = Ledger::start(alloc, offers)?;
    let b = ledger.split(&mut a);
    let (a, b) = worked_by_two(rt, &ledger, a, b);
    Ok(both_close_with(ledger, a, b, &OPPOSED))
}

// Whether two seats that share one ledger settle them, in turn and in threads, and one that claims every input.
fn any_seats_settle<R: Threads>(rt: &R, alloc: Global) -> Result<bool, NoMemory> {
    let offers = opposed_offers(alloc, 3)?;
    let in_turn = settle_in_turn(alloc, &offers);
    let by_two = settle_by_two(rt, alloc, &offers);
    let alone = settles_alone(alloc, &offers, &REJECTED, &OPPOSED);
    drop(offers);
    Ok(in_turn? && by_two? && alone?)
}

// Whether each outcome can empty the hand.
fn each_outcome_empties(alloc: Global) -> Result<bool, NoMemory> {
    let offers = contested_offers(alloc)?;
    let settles = settles_alone(alloc, &offers, &EMPTIED, &CONTESTED);
    drop(offers);
    settles
}

#[test]
fn any_seats_settle_a_ledger_and_each_outcome_can_empty_a_hand(rt: HostRuntime) {
    assert!(rt; any_seats_settle(&rt, rt.alloc()) == Ok(true));
    assert!(rt; each_outcome_empties(rt.alloc()) == Ok(true));
}
