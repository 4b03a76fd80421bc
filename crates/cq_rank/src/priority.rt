//! Strict priority.
ghost use Rattle.std.specs.Prelude.{◌≡◌, ◌↔◌, ◌<◌, ◌≤◌, ◌^◌, [], IfOk, IsErr, IsOk, OnErr, OnOk};
ghost use Rattle.cq_rank.specs.Classes.{AreClasses, rows_of};
ghost use Rattle.cq_rank.specs.Machine.{priority};

use crate::{Classes, Rank, TagOverflow};
use cq_base::{Class, ClassRow, NoMemory};
use std::alloc::Global;
use std::marker::Model;

/// Ranks a cell by the priority of its class, so that of one level a cell of a lesser priority leaves before all of
/// greater ones, and those of one priority leave in the order of arrival.
#[derive(Drop)]
pub struct Priority {
    classes: Classes,
}

impl Model for Priority {
    ghost use Rattle.std.specs.Prelude.{[]};
    ghost use Rattle.cq_rank.specs.Classes.{numbers_of};
    ghost use Rattle.cq_rank.specs.Machine.{Ranker};

    ghost Value = { Ranker };

    ghost view = { λ r. record { fixed = numbers_of r.classes; state = [] } };
}

impl Priority {
    /// It knows these classes. The error is want of memory.
    #[tactic(auto, using(crate::specs::Classes::rows_again))]
    pub fn new(alloc: Global, classes: &[ClassRow]) -> Result<Priority, NoMemory>
        requires { AreClasses classes.now }
        ensures classes { IfOk result (λ r. rows_of r.fixed ≡ classes.now) }
        ensures state { IfOk result (λ r. r.state ≡ []) }
    {
        Ok(Priority {
            classes: Classes::of(alloc, classes)?,
        })
    }
}

#[tactic(auto, using(crate::specs::Classes::rows_again))]
impl Rank for Priority {
    ghost use Rattle.cq_rank.specs.MachineLaws.{priority_laws};

    ghost fixed = { λ r. r.fixed };

    ghost state = { λ r. r.state };

    ghost machine = { λ numbers. priority (rows_of numbers) };

    ghost laws = { λ numbers. priority_laws (rows_of numbers) };

    fn classes(&self) -> u16 {
        self.classes.len()
    }

    fn level(&self, class: Class) -> u8 {
        self.classes.level(class)
    }

    /// The priority of the class. It is never an error.
    fn rank(&mut self, class: Class) -> Result<u128, TagOverflow>
        requires { class < (priority (rows_of self.old.fixed)).classes }
        ensures fixed { self.new.fixed ≡ self.old.fixed }
        ensures rank { IfOk result (λ rank. rank ≡ (priority (rows_of self.old.fixed)).ranked self.old.state class) }
        ensures given { OnOk result (self.new.state ≡ (priority (rows_of self.old.fixed)).given self.old.state class) }
        ensures overflow { IsErr result ↔ (2 ^ 128 ≤ (priority (rows_of self.old.fixed)).ranked self.old.state class) }
        ensures refused { OnErr result (self.new.state ≡ self.old.state) }
        ensures fits { IsOk result }
    {
        Ok(self.classes.priority(class))
    }

    fn sent(&mut self, _level: u8, _rank: u128) {}

    fn idle(&mut self) {}

    // In these three a field is looked at, which shows the proof that the state has no numbers.

    /// There are none.
    fn width(&self) -> u16 {
        let _ = &self.classes;
        0
    }

    fn number(&self, _at: u16) -> u128 {
        let _ = &self.classes;
        0
    }

    fn put(&mut self, _at: u16, _number: u128) {
        let _ = &self.classes;
    }
}
