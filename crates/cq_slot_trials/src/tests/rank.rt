//! Each machine through its bound, over a few steps.
ghost use Rattle.std.specs.Prelude.{◌≡◌, length};
ghost use Rattle.cq_rank.specs.Classes.{AreClasses};

use cq_base::{ClassRow, NoMemory};
use cq_rank::{FirstCome, Priority, Rank};
use std::alloc::Global;

// Two classes, the second of the least urgent level.
fn two_classes() -> [ClassRow; 2]
    ensures are { AreClasses result }
    ensures two { length result ≡ 2 }
{
    [
        ClassRow {
            level: 3,
            priority: 7,
            cost: 1,
        },
        ClassRow {
            level: 15,
            priority: u128::MAX,
            cost: 2,
        },
    ]
}

// Whether a machine of two classes without a state has the levels of both, and these ranks: those of a cell of class 1
// and then of class 0, with a sending between them, and of another of class 1 after an idle slot.
fn has_ranks<R: Rank>(r: &mut R, ranks: [Option<u128>; 3]) -> bool {
    if r.classes() != 2 || r.width() != 0 {
        return false;
    }
    let levels = [r.level(0), r.level(1)];
    let first = r.rank(1).ok();
    r.sent(levels[1], first.unwrap_or(0));
    let second = r.rank(0).ok();
    r.idle();
    levels == [3, 15] && [first, second, r.rank(1).ok()] == ranks
}

// Whether every cell comes first at a first-come output, and is ranked elsewhere by the priority of its class.
fn each_has_ranks(alloc: Global) -> Result<bool, NoMemory> {
    let mut machine = FirstCome::new(alloc, &two_classes())?;
    let first_come = has_ranks(&mut machine, [Some(0); 3]);
    drop(machine);
    let mut machine = Priority::new(alloc, &two_classes())?;
    Ok(first_come && has_ranks(&mut machine, [Some(u128::MAX), Some(7), Some(u128::MAX)]))
}

#[test]
fn cells_come_first_or_are_ranked_by_the_priority_of_their_class(rt: HostRuntime) {
    assert!(rt; each_has_ranks(rt.alloc()) == Ok(true));
}
