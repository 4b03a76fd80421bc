//! Worked slots, the tag fault, and the call that wants memory, with ample memory.
ghost use Rattle.std.specs.Prelude.{◌≡◌, ◌≤◌, OnOk, is_err, length, map};
ghost use Rattle.cq_rank.specs.Switch.{AreForOneSwitch, class_count};
ghost use Rattle.cq_slot_trials.specs.ThreePorts.{CanStep, HasStepped, IsAt};

use super::coming::Coming;
use super::outputs::{first_come, note_departures};
use cq_base::{Class, Departure, NoMemory, Room, TagFault};
use cq_ideal::{Ideal, Refused};
use cq_rank::{FirstCome, Rank, TagOverflow};
use std::alloc::Global;

// Ranks the cells of class 0 by 0, and refuses those of class 1. It has no state, as first come, first served.
#[derive(Drop)]
struct RefusesClassOne {
    others: FirstCome,
}

impl Rank for RefusesClassOne {
    ghost use Rattle.cq_slot_trials.specs.Refusing.{refuses_class_one, refuses_class_one_laws};

    ghost fixed = { λ r. r.others.fixed };

    ghost state = { λ r. r.others.state };

    ghost machine = { λ _. refuses_class_one };

    ghost laws = { λ _. refuses_class_one_laws };

    fn classes(&self) -> u16 {
        let _ = self.others.classes();
        2
    }

    fn level(&self, _class: Class) -> u8 {
        0
    }

    fn rank(&mut self, class: Class) -> Result<u128, TagOverflow> {
        if class == 0 { Ok(0) } else { Err(TagOverflow) }
    }

    fn sent(&mut self, _level: u8, _rank: u128) {}

    fn idle(&mut self) {}

    fn width(&self) -> u16 {
        self.others.width()
    }

    fn number(&self, at: u16) -> u128 {
        self.others.number(at)
    }

    fn put(&mut self, at: u16, number: u128) {
        self.others.put(at, number);
    }
}

// The next slot of a switch of three ports.
fn step<R: Rank>(
    ideal: &mut Ideal<R>,
    coming: &Coming<3>,
    sent: &mut Room<Departure>,
) -> Result<(), TagFault>
    requires { CanStep (map R.machine ideal.old.fixed) ideal.old sent.old }
    ensures fixed { ideal.new.fixed ≡ ideal.old.fixed }
    ensures rooms { ideal.new.rooms ≡ ideal.old.rooms }
    ensures stopped { ideal.new.stopped ≡ is_err result }
    ensures stepped { OnOk result (HasStepped ideal.old ideal.new) }
{
    // Its contract tells that there are 64 places.
    let _places = coming.arrivals.at(0);
    ideal.slot(ideal.next(), &coming.arrivals, sent)
}

// A run of these slots, up to the first tag fault, and that fault. What leaves is noted.
fn run<R: Rank>(
    alloc: Global,
    ideal: &mut Ideal<R>,
    slots: &[Coming<3>],
    left: &mut Vec<[u64; 4]>,
) -> Result<Option<TagFault>, NoMemory>
    requires trial { IsAt (map R.machine ideal.old.fixed) 0 ideal.old }
    requires few { length slots.now ≤ 3 }
{
    'slots: for coming in slots {
        let mut sent = Room::new(alloc, 3)?;
        if let Err(fault) = step(ideal, coming, &mut sent) {
            return Ok(Some(fault));
        }
        note_departures(left, &sent)?;
    }
    Ok(None)
}

// The limits of the outputs, and what slots come to under them: of each departure its slot, its output, and the input
// and the packet of the cell; what the outputs with limits refuse; and the tag fault, if there is one.
struct Outcome<'a> {
    limits: [Option<u64>; 3],
    left: &'a [[u64; 4]],
    refused: &'a [Refused],
    fault: Option<TagFault>,
}

// Whether this left a switch, and this is what it refused.
fn has_told<R: Rank>(ideal: &Ideal<R>, left: &[[u64; 4]], outcome: &Outcome) -> bool {
    left == outcome.left && ideal.refused() == outcome.refused
}

// Whether a switch that is new is empty and before slot 0, and slots come to this.
fn come_to<R: Rank>(
    alloc: Global,
    ranks: Vec<R>,
    slots: &[Coming<3>],
    outcome: &Outcome,
) -> Result<bool, NoMemory>
    requires ports { length ranks.items ≡ 3 }
    requires machines { AreForOneSwitch (map R.machine (map R.fixed ranks.items)) }
    requires classes { class_count (map R.machine (map R.fixed ranks.items)) ≡ 2 }
    requires few { length slots.now ≤ 3 }
{
    let mut ideal = Ideal::new(alloc, ranks, &[192, 192, 192], &outcome.limits)?;
    let is_new = ideal.empty() && !ideal.stopped() && ideal.next() == 0;
    let mut left = Vec::new(alloc);
    let fault = run(alloc, &mut ideal, slots, &mut left);
    let has_told = has_told(&ideal, &left, outcome);
    drop(left);
    drop(ideal);
    Ok(is_new && has_told && fault? == outcome.fault)
}

// Whether slots come to it where the outputs send in the order of arrival.
fn first_come_to(alloc: Global, slots: &[Coming<3>], outcome: &Outcome) -> Result<bool, NoMemory>
    requires { length slots.now ≤ 3 }
{
    let ranks = vec![in alloc; first_come(alloc)?, first_come(alloc)?, first_come(alloc)?]?;
    come_to(alloc, ranks, slots, outcome)
}

// The machine that refuses class 1.
fn refusing(alloc: Global) -> Result<RefusesClassOne, NoMemory> {
    Ok(RefusesClassOne {
        others: first_come(alloc)?,
    })
}

// Whether slots come to it where the machines refuse class 1.
fn refusing_come_to(alloc: Global, slots: &[Coming<3>], outcome: &Outcome) -> Result<bool, NoMemory>
    requires { length slots.now ≤ 3 }
{
    let ranks = vec![in alloc; refusing(alloc)?, refusing(alloc)?, refusing(alloc)?]?;
    come_to(alloc, ranks, slots, outcome)
}

const NO_LIMITS: [Option<u64>; 3] = [None, None, None];

// Cells for one output leave in the order of their inputs.
const IN_ORDER: Outcome = Outcome {
    limits: NO_LIMITS,
    left: &[[0, 0, 0, 0], [1, 0, 1, 0]],
    refused: &[],
    fault: None,
};

// A cell does not wait for another output.
const PAST_OTHERS: Outcome = Outcome {
    limits: NO_LIMITS,
    left: &[[0, 0, 0, 0], [1, 0, 1, 0], [1, 1, 2, 1], [2, 0, 2, 0]],
    refused: &[],
    fault: None,
};

// A packet that finds its output full is refused whole.
const ADMITTED: Outcome = Outcome {
    limits: [Some(1), None, Some(2)],
    left: &[[0, 0, 0, 0], [2, 0, 1, 1]],
    refused: &[
        Refused {
            output: 0,
            limit: 1,
            packets: 1,
            cells: 2,
        },
        Refused {
            output: 2,
            limit: 2,
            packets: 0,
            cells: 0,
        },
    ],
    fault: None,
};

// The first input whose rank does not fit stops the switch.
const STOPPED: Outcome = Outcome {
    limits: NO_LIMITS,
    left: &[[0, 1, 1, 0], [0, 2, 0, 0]],
    refused: &[],
    fault: Some(TagFault {
        slot: 1,
        input: 1,
        output: 2,
    }),
};

// Whether worked slots come to each of these.
fn worked_come_to(alloc: Global) -> Result<bool, NoMemory> {
    let none = Coming::nothing();
    let both = none.with_packet(1, 0, 0, 0).with_packet(0, 0, 0, 0);
    let in_order = [both, none, none];
    let past_others = [Coming::three(), none.with_packet(2, 1, 1, 0), none];
    let admitted = [
        both,
        none.with_second(1, 0, 0),
        none.with_packet(1, 1, 0, 0),
    ];
    let first = none.with_packet(0, 0, 2, 0).with_packet(1, 0, 1, 0);
    let second = none
        .with_packet(0, 1, 0, 0)
        .with_packet(1, 1, 2, 1)
        .with_packet(2, 0, 1, 1);
    Ok(
        first_come_to(alloc, &in_order, &IN_ORDER)?
            && first_come_to(alloc, &past_others, &PAST_OTHERS)?
            && first_come_to(alloc, &admitted, &ADMITTED)?
            && refusing_come_to(alloc, &[first, second, none], &STOPPED)?,
    )
}

#[test]
fn cells_leave_are_refused_and_stop_as_worked_by_hand(rt: HostRuntime) {
    assert!(rt; worked_come_to(rt.alloc()) == Ok(true));
}
