//! Worked ranks, and the calls that want memory, with ample memory.
ghost use Rattle.std.specs.Prelude.{◌≡◌};
ghost use Rattle.cq_rank.specs.Classes.{AreClasses};

use Step::{Idle, Ranks, Sent};
use cq_base::{ClassRow, Kind, NoMemory, Sequence, Setup};
use cq_rank::Rank;
use cq_scfq::{Discipline, Fair};
use std::alloc::Global;

// What an output's machine meets.
#[derive(Clone, Copy)]
enum Step {
    // A cell of the class arrives, and gets the rank. None stands for a rank that does not fit.
    Ranks(u16, Option<u128>),
    // The output sent a cell of this level and this rank.
    Sent(u8, u128),
    // The output sent nothing.
    Idle,
}

// The rank of a cell of the class, or None where it does not fit or there is no such class.
fn rank_of<R: Rank>(machine: &mut R, class: u16) -> Option<u128> {
    if class < machine.classes() {
        machine.rank(class).ok()
    } else {
        None
    }
}

// Whether the machine meets the step with the rank that it states.
fn meets<R: Rank>(machine: &mut R, step: Step) -> bool {
    match step {
        Ranks(class, rank) => return rank_of(machine, class) == rank,
        Sent(level, rank) => machine.sent(level, rank),
        Idle => machine.idle(),
    }
    true
}

// Whether the machine meets the steps, one after the other.
fn meets_all<R: Rank>(machine: &mut R, steps: &[Step]) -> bool {
    for step in steps {
        if !meets(machine, *step) {
            return false;
        }
    }
    true
}

// Whether fair queueing of the classes meets the steps.
fn fair_meets_all(alloc: Global, classes: &[ClassRow], steps: &[Step]) -> Result<bool, NoMemory>
    requires { AreClasses classes.now }
{
    let mut fair = Fair::new(alloc, classes)?;
    Ok(meets_all(&mut fair, steps))
}

// A class of the level, which costs so much.
fn class(level: u8, cost: u128) -> ClassRow
    ensures { result ≡ record { level = level; priority = 0; cost = cost } }
{
    ClassRow {
        level,
        priority: 0,
        cost,
    }
}

// A cell is ranked behind its class and the virtual time.
const SEVERAL: [Step; 9] = [
    Ranks(0, Some(1)),
    Ranks(1, Some(2)),
    Sent(0, 1),
    Ranks(0, Some(2)),
    Sent(0, 2),
    Sent(0, 2),
    Ranks(1, Some(4)),
    Idle,
    Ranks(0, Some(1)),
];

// Each level has its own virtual time.
const LEVELS: [Step; 5] = [
    Ranks(1, Some(100)),
    Sent(0, 100),
    Ranks(0, Some(5)),
    Sent(1, 5),
    Ranks(1, Some(200)),
];

// A rank does not fit until the output was idle.
const GREATEST: [Step; 6] = [
    Ranks(0, Some(u128::MAX)),
    Sent(0, u128::MAX),
    Ranks(0, None),
    Ranks(0, None),
    Idle,
    Ranks(0, Some(u128::MAX)),
];

// Whether fair queueing meets each of these, of classes of one level, of two levels, and of the greatest cost.
fn fair_meets_each(alloc: Global) -> Result<bool, NoMemory> {
    Ok(
        fair_meets_all(alloc, &[class(0, 1), class(0, 2)], &SEVERAL)?
            && fair_meets_all(alloc, &[class(1, 5), class(0, 100)], &LEVELS)?
            && fair_meets_all(alloc, &[class(0, u128::MAX)], &GREATEST)?,
    )
}

// Machines of each kind, for one class.
fn each_kind(alloc: Global) -> Result<Vec<Discipline>, NoMemory> {
    let class = ClassRow {
        level: 0,
        priority: 9,
        cost: 5,
    };
    let classes = Vec::from_array(alloc, [class])?;
    let kinds = Vec::from_array(alloc, [Kind::Fair, Kind::FirstCome, Kind::Priority])?;
    let setup = Setup {
        classes: Sequence::of(classes),
        kinds: Sequence::of(kinds),
    };
    Discipline::all(alloc, &setup)
}

// What each of them meets.
const KINDS: [[Step; 5]; 3] = [
    [
        Ranks(0, Some(5)),
        Sent(0, 5),
        Ranks(0, Some(10)),
        Idle,
        Ranks(0, Some(5)),
    ],
    [
        Ranks(0, Some(0)),
        Sent(0, 5),
        Ranks(0, Some(0)),
        Idle,
        Ranks(0, Some(0)),
    ],
    [
        Ranks(0, Some(9)),
        Sent(0, 5),
        Ranks(0, Some(9)),
        Idle,
        Ranks(0, Some(9)),
    ],
];

// Whether there is a machine for each of these steps, and meets them.
fn each_meets_all(machines: &mut [Discipline], steps: &[[Step; 5]]) -> bool {
    if machines.len() != steps.len() {
        return false;
    }
    for (machine, steps) in machines.iter_mut().zip(steps) {
        if !meets_all(machine, steps) {
            return false;
        }
    }
    true
}

// Whether each port ranks by its own discipline.
fn each_kind_meets_all(alloc: Global) -> Result<bool, NoMemory> {
    let mut machines = each_kind(alloc)?;
    Ok(each_meets_all(machines.as_mut_slice(), &KINDS))
}

// The numbers of a machine's state are put into another, one after the other.
fn copied<R: Rank, S: Rank>(from: &R, to: &mut S) {
    for at in 0..from.width() {
        if at < to.width() {
            to.put(at, from.number(at));
        }
    }
}

const BEFORE: [Step; 3] = [Ranks(1, Some(5)), Ranks(1, Some(10)), Sent(1, 7)];

const BEHIND: [Step; 2] = [Ranks(0, Some(10)), Ranks(1, Some(15))];

// Whether the first machine meets steps, and the second goes on with others from the numbers of the first.
fn goes_on<R: Rank, S: Rank>(first: &mut R, second: &mut S) -> bool {
    let begun = first.width() == 18 && meets_all(first, &BEFORE);
    copied(first, second);
    begun && meets_all(second, &BEHIND)
}

// Whether a machine goes on from the numbers of another.
fn second_goes_on(alloc: Global) -> Result<bool, NoMemory> {
    let classes = [class(1, 3), class(0, 5)];
    let mut first = Fair::new(alloc, &classes)?;
    let mut second = Fair::new(alloc, &classes)?;
    let is_so = goes_on(&mut first, &mut second);
    drop(first);
    drop(second);
    Ok(is_so)
}

#[test]
fn each_discipline_meets_its_worked_ranks(rt: HostRuntime) {
    assert!(rt; fair_meets_each(rt.alloc()) == Ok(true));
    assert!(rt; each_kind_meets_all(rt.alloc()) == Ok(true));
    assert!(rt; second_goes_on(rt.alloc()) == Ok(true));
}
