//! A phase by workers: worked examples by one and by several, and workers who wait for one another.
ghost use Rattle.std.specs.Prelude.{◌≤◌, length};
ghost use Rattle.cq_base.specs.Limits.{most_ports, most_workers};

use super::opposed::{filled, opposed_offers};
use cq_base::{NoMemory, Port};
use cq_crew::{OpenGate, Phase, Settled, pair_phase};
use cq_pair::{Core, LowestFirst};
use cq_prefs::Offers;
use cq_trial_kit::{Meeting, list_of};
use std::alloc::Global;
use std::test::Fail;
use std::thread::Threads;

// Two inputs, each with a cell for the output of its own number.
const APART: [[(Port, u128); 1]; 2] = [[(0, 0)], [(1, 0)]];

// Their offers.
fn offers_apart(alloc: Global) -> Result<Offers, NoMemory> {
    let lists = [
        list_of(alloc, 0, 2, &APART[0])?,
        list_of(alloc, 1, 2, &APART[1])?,
    ];
    filled(alloc, 2, &lists)
}

// Whether these are the partners of all inputs, in order of number, after so many proposals.
fn comes_to(phase: &Phase, partners: &[Option<Port>], proposals: u64) -> bool {
    let ports = phase.matching.ports();
    'inputs: for input in 0..ports {
        if partners.get(input as usize).copied() != Some(phase.matching.partner_of(input)) {
            return false;
        }
    }
    (ports as usize, phase.proposals) == (partners.len(), proposals)
}

// Whether each of so many inputs has the output that stands as far from the last as the input from the first.
fn is_opposed(phase: &Phase, ports: u16, proposals: u64) -> bool {
    let inputs = phase.matching.ports();
    'inputs: for input in 0..inputs {
        if phase.matching.partner_of(input) != Some(inputs - 1 - input) {
            return false;
        }
    }
    (inputs, phase.proposals) == (ports, proposals)
}

fn is_shared(settled: &Settled) -> bool {
    match settled {
        Settled::Shared(_) => true,
        Settled::Alone(_) => false,
    }
}

// Whether one core, one worker alone, two, and 64 come to the same over opposed offers.
fn any_number_settles<R: Threads + Sync>(
    rt: &R,
    alloc: Global,
    offers: &Offers,
    proposals: u64,
) -> bool {
    for workers in [1u16, 2, 64] {
        let settled = pair_phase(rt, alloc, offers, workers, &OpenGate);
        let is_so = is_opposed(&settled.phase(), offers.ports(), proposals);
        if !is_so || is_shared(&settled) != (workers > 1) {
            return false;
        }
    }
    one_core_settles(offers, proposals)
}

// Whether one core comes to it.
fn one_core_settles(offers: &Offers, proposals: u64) -> bool {
    let mut core = Core::begin(offers);
    core.settle(offers, &mut LowestFirst);
    let phase = Phase {
        matching: *core.pairs(),
        proposals: core.made(),
    };
    is_opposed(&phase, offers.ports(), proposals)
}

// Whether they do where there are so many ports, 64 at most, and proposals.
fn any_number_settles_over<R: Threads + Sync>(
    rt: &R,
    alloc: Global,
    row: (u16, u64),
) -> Result<bool, NoMemory> {
    let offers = opposed_offers(alloc, row.0.min(64))?;
    let settles = any_number_settles(rt, alloc, &offers, row.1);
    drop(offers);
    Ok(settles)
}

#[test]
fn any_number_of_workers_comes_to_the_same(rt: HostRuntime) {
    for row in [(2u16, 3u64), (3, 6), (64, 2080)] {
        assert!(rt; any_number_settles_over(&rt, rt.alloc(), row) == Ok(true));
    }
}

// Whether there is nothing to share for 64 workers where there are no offers, and no input gets a partner.
fn nothing_is_shared<R: Threads + Sync>(rt: &R, alloc: Global) -> Result<bool, NoMemory> {
    let offers = Offers::new(alloc, 3)?;
    let settled = pair_phase(rt, alloc, &offers, 64, &OpenGate);
    drop(offers);
    Ok(!is_shared(&settled) && comes_to(&settled.phase(), &[None; 3], 0))
}

#[test]
fn without_offers_there_is_nothing_to_share(rt: HostRuntime) {
    assert!(rt; nothing_is_shared(&rt, rt.alloc()) == Ok(true));
}

// For a run in which some growth of memory is refused, as by `rt try --test --fail-alloc N` or `tests/phases.py`: where
// it is one of the lists or of the offers the test ends, and any other changes nothing of the phase.
#[test]
fn whatever_growth_is_refused_a_phase_comes_to_the_same(rt: HostRuntime) -> Result<(), Fail> {
    let Ok(offers) = opposed_offers(rt.alloc(), 64) else {
        return Ok(());
    };
    let settled = pair_phase(&rt, rt.alloc(), &offers, 2, &OpenGate);
    assert!(rt; is_opposed(&settled.phase(), 64, 2080));
    Ok(())
}

// Whether the workers met at the gate, and each of them told of proposals of its own, all of them in time: so many in
// all, of which one for each input was told to be held.
fn have_proposed(gate: &Meeting, workers: u16, proposals: u64, held: u64) -> bool {
    let [zero, one, two] = gate.proposals();
    let each_has = zero > 0 && one > 0 && (two > 0) == (workers > 2);
    let told = zero.wrapping_add(one).wrapping_add(two);
    let are_sound = gate.in_vain() == 0 && gate.miscounted() == 0 && gate.misclaimed() == 0;
    gate.have_met() && each_has && told == proposals && gate.held() == held && are_sound
}

// Whether two workers or three, who wait for one another's first claim, come to these partners, after so many
// proposals, of which one for each input was told to be held.
fn meet<R: Threads + Sync>(
    rt: &R,
    alloc: Global,
    offers: &Offers,
    workers: u16,
    partners: &[Option<Port>],
    proposals: u64,
) -> bool
    requires some { 1 ≤ workers }
    requires few { workers ≤ most_workers }
{
    let gate = Meeting::of(workers);
    let settled = pair_phase(rt, alloc, offers, workers, &gate);
    is_shared(&settled)
        && have_proposed(&gate, workers, proposals, partners.len() as u64)
        && comes_to(&settled.phase(), partners, proposals)
}

// Whether two workers meet where each input has an output of its own.
fn meet_apart<R: Threads + Sync>(rt: &R, alloc: Global) -> Result<bool, NoMemory> {
    let offers = offers_apart(alloc)?;
    let meet = meet(rt, alloc, &offers, 2, &OWN_OF_TWO, 2);
    drop(offers);
    Ok(meet)
}

// Whether so many workers meet over opposed offers, of as many inputs as there are partners.
fn meet_opposed<R: Threads + Sync>(
    rt: &R,
    alloc: Global,
    workers: u16,
    partners: &[Option<Port>],
    proposals: u64,
) -> Result<bool, NoMemory>
    requires ports { length partners.now ≤ most_ports }
    requires some { 1 ≤ workers }
    requires few { workers ≤ most_workers }
{
    let offers = opposed_offers(alloc, partners.len() as u16)?;
    let meet = meet(rt, alloc, &offers, workers, partners, proposals);
    drop(offers);
    Ok(meet)
}

const OWN_OF_TWO: [Option<Port>; 2] = [Some(0), Some(1)];

const LAST_OF_TWO: [Option<Port>; 2] = [Some(1), Some(0)];

const LAST_OF_THREE: [Option<Port>; 3] = [Some(2), Some(1), Some(0)];

// Whether workers meet over two inputs and over three. With two workers over three, one of them claims an input that is
// not of its own number.
fn any_meet<R: Threads + Sync>(rt: &R, alloc: Global) -> Result<bool, NoMemory> {
    Ok(
        meet_apart(rt, alloc)?
            && meet_opposed(rt, alloc, 2, &LAST_OF_TWO, 3)?
            && meet_opposed(rt, alloc, 2, &LAST_OF_THREE, 6)?
            && meet_opposed(rt, alloc, 3, &LAST_OF_THREE, 6)?,
    )
}

#[test]
fn two_workers_and_three_meet(rt: HostRuntime) {
    assert!(rt; any_meet(&rt, rt.alloc()) == Ok(true));
}
