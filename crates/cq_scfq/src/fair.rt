//! Self-clocked fair queueing.
ghost use Rattle.std.specs.Prelude.{◌≡◌, ◌+◌, IfOk, length};
ghost use Rattle.cq_rank.specs.Classes.{AreClasses, rows_of};
ghost use Rattle.cq_scfq.specs.Fair.{all_zero};

use cq_base::{Class, ClassRow, LEVELS, NoMemory};
use cq_rank::{Classes, Rank, TagOverflow};
use std::alloc::Global;
use std::marker::Model;

/// Ranks cells by self-clocked fair queueing (Golestani 1994). Each class has a tag, the rank that its
/// last cell got, and each level has a virtual time, the rank of the cell of this level that the output sent last. A
/// cell gets the greater of its class's tag and its level's virtual time, and the cost of its class on top.
///
/// An idle slot sets the tags and the virtual times to 0.
#[derive(Drop)]
pub struct Fair {
    classes: Classes,
    // the tags of the classes in order, and behind them the virtual times of the levels
    numbers: Vec<u128>,
    // whether all numbers are known to be 0: then an idle slot sets none
    cleared: bool,
}

impl Model for Fair {
    ghost use Rattle.std.specs.Prelude.{◌≡◌, ◌+◌, IsTrue, length, replicate, vec_len};
    ghost use Rattle.cq_base.specs.Limits.{level_count};
    ghost use Rattle.cq_rank.specs.Classes.{numbers_of};
    ghost use Rattle.cq_rank.specs.Machine.{Ranker};

    ghost Value = { Ranker };

    ghost view = { λ r. record { fixed = numbers_of r.classes; state = r.numbers.items } };

    ghost invariant = { λ r. (vec_len r.numbers ≡ length r.classes + level_count)
        × (IsTrue r.cleared → r.numbers.items ≡ replicate (length r.classes + level_count) 0) };
}

impl Fair {
    /// It knows these classes. All tags and virtual times are 0. The error is want of memory.
    #[tactic(auto, using(cq_rank::specs::Classes::rows_again))]
    pub fn new(alloc: Global, classes: &[ClassRow]) -> Result<Fair, NoMemory>
        requires { AreClasses classes.now }
        ensures classes { IfOk result (λ r. rows_of r.fixed ≡ classes.now) }
        ensures state { IfOk result (λ r. r.state ≡ all_zero classes.now) }
    {
        let classes = Classes::of(alloc, classes)?;
        let numbers = vec![in alloc; 0; classes.len() as usize + LEVELS]?;
        Ok(Fair {
            classes,
            numbers,
            cleared: true,
        })
    }
}

// The place of a level's virtual time, behind the tags of these classes.
fn time_place(classes: &Classes, level: u8) -> usize
    ensures { result ≡ length classes.now + level }
{
    classes.len() as usize + level as usize
}

#[tactic(auto, using(cq_rank::specs::Classes::rows_again))]
impl Rank for Fair {
    ghost use Rattle.cq_scfq.specs.Fair.{fair};
    ghost use Rattle.cq_scfq.specs.FairLaws.{fair_laws};

    ghost fixed = { λ r. r.fixed };

    ghost state = { λ r. r.state };

    ghost machine = { λ numbers. fair (rows_of numbers) };

    ghost laws = { λ numbers. fair_laws (rows_of numbers) };

    fn classes(&self) -> u16 {
        self.classes.len()
    }

    fn level(&self, class: Class) -> u8 {
        self.classes.level(class)
    }

    fn rank(&mut self, class: Class) -> Result<u128, TagOverflow> {
        let place = time_place(&self.classes, self.classes.level(class));
        let from = self.numbers[class as usize].max(self.numbers[place]);
        match from.checked_add(self.classes.cost(class)) {
            None => Err(TagOverflow),
            Some(rank) => {
                self.cleared = false;
                self.numbers[class as usize] = rank;
                Ok(rank)
            }
        }
    }

    // No number stands at the place of what is no level, and then none changes.
    #[tactic(auto, using(cq_rank::specs::Classes::rows_again, std::proofs::lemmas::List::set_past))]
    fn sent(&mut self, level: u8, rank: u128) {
        let place = time_place(&self.classes, level);
        if place < self.numbers.len() {
            self.cleared = false;
            self.numbers[place] = rank;
        }
    }

    fn idle(&mut self) {
        if !self.cleared {
            self.numbers.fill(0);
            self.cleared = true;
        }
    }

    /// One for each class, and one for each level.
    fn width(&self) -> u16 {
        self.classes.len() + LEVELS as u16
    }

    fn number(&self, at: u16) -> u128 {
        self.numbers[at as usize]
    }

    fn put(&mut self, at: u16, number: u128) {
        self.cleared = false;
        self.numbers[at as usize] = number;
    }
}
