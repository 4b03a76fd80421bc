//! First come, first served.
ghost use Rattle.std.specs.Prelude.{◌≡◌, ◌<◌, ◌≤◌, [], IfOk, IsOk, OnOk, length};
ghost use Rattle.std.specs.List.{AllByRecursion};
ghost use Rattle.cq_base.specs.Limits.{level_count, most_classes};
ghost use Rattle.cq_rank.specs.Classes.{rows_of};

use crate::{Classes, Rank, TagOverflow};
use cq_base::{Class, ClassRow, NoMemory};
use std::alloc::Global;
use std::marker::Model;

/// Ranks every cell 0, so that the cells of one level leave in the order of arrival, and those of one slot in the
/// order of their inputs.
#[derive(Drop)]
pub struct FirstCome {
    classes: Classes,
}

impl Model for FirstCome {
    ghost use Rattle.std.specs.Prelude.{[]};
    ghost use Rattle.cq_rank.specs.Classes.{numbers_of};
    ghost use Rattle.cq_rank.specs.Machine.{Ranker};

    ghost Value = { Ranker };

    ghost view = { λ r. record { fixed = numbers_of r.classes; state = [] } };
}

impl FirstCome {
    /// It knows these classes. The error is want of memory.
    #[tactic(auto, using(crate::specs::Classes::rows_again))]
    pub fn new(alloc: Global, classes: &[ClassRow]) -> Result<FirstCome, NoMemory>
        requires some { 0 < length classes.now }
        requires few { length classes.now ≤ most_classes }
        requires levels { AllByRecursion (λ row. row.level < level_count) classes.now }
        ensures classes { IfOk result (λ r. rows_of r.fixed ≡ classes.now) }
        ensures state { IfOk result (λ r. r.state ≡ []) }
    {
        Ok(FirstCome {
            classes: Classes::of(alloc, classes)?,
        })
    }
}

#[tactic(auto, using(crate::specs::Classes::rows_again))]
impl Rank for FirstCome {
    ghost use Rattle.cq_rank.specs.Machine.{first_come};
    ghost use Rattle.cq_rank.specs.MachineLaws.{first_come_laws};

    ghost fixed = { λ r. r.fixed };

    ghost state = { λ r. r.state };

    ghost machine = { λ numbers. first_come (rows_of numbers) };

    ghost laws = { λ numbers. first_come_laws (rows_of numbers) };

    fn classes(&self) -> u16 {
        self.classes.len()
    }

    fn level(&self, class: Class) -> u8 {
        self.classes.level(class)
    }

    /// It is 0, and never an error.
    fn rank(&mut self, _class: Class) -> Result<u128, TagOverflow>
        ensures fixed { self.new.fixed ≡ self.old.fixed }
        ensures rank { IfOk result (λ rank. rank ≡ 0) }
        ensures given { OnOk result (self.new.state ≡ self.old.state) }
        ensures fits { IsOk result }
    {
        Ok(0)
    }

    fn sent(&mut self, _level: u8, _rank: u128) {}

    fn idle(&mut self) {}

    // In these three a field is looked at, which shows the proof that the state has no numbers.

    /// There are none.
    fn width(&self) -> u16 {
        let _ = &self.classes;
        0
    }

    fn number(&self, _at: u16) -> u128 {
        let _ = &self.classes;
        0
    }

    fn put(&mut self, _at: u16, _number: u128) {
        let _ = &self.classes;
    }
}
