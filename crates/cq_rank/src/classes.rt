//! The classes of a switch, as a discipline keeps them.
ghost use Rattle.std.specs.Prelude.{◌≡◌, ◌<◌, ◌≤◌, IfOk, length};
ghost use Rattle.std.specs.List.{AllByRecursion};
ghost use Rattle.cq_base.specs.Limits.{level_count, most_classes};
ghost use Rattle.cq_rank.specs.Classes.{row_at};

use cq_base::{Class, ClassRow, NoMemory};
use std::alloc::Global;
use std::marker::Model;

/// At most 16 classes, each of one of the levels. Contracts see their rows, in order.
#[derive(Drop)]
pub struct Classes {
    rows: Vec<ClassRow>,
}

impl Model for Classes {
    ghost use Rattle.std.specs.Prelude.{◌<◌, ◌≤◌, List, vec_len};
    ghost use Rattle.std.specs.List.{AllByRecursion};
    ghost use Rattle.cq_base.specs.Limits.{level_count, most_classes};
    ghost use Rattle.cq_base.specs.declared.setup.ClassRow.{ClassRow};

    ghost Value = { List ClassRow };

    ghost view = { λ a. a.rows.items };

    ghost invariant = { λ a.
        (vec_len a.rows ≤ most_classes) × AllByRecursion (λ row. row.level < level_count) a.rows.items };
}

impl Classes {
    /// These classes. The error is want of memory.
    pub fn of(alloc: Global, rows: &[ClassRow]) -> Result<Classes, NoMemory>
        requires few { length rows.now ≤ most_classes }
        requires levels { AllByRecursion (λ row. row.level < level_count) rows.now }
        ensures { IfOk result (λ classes. classes ≡ rows.now) }
    {
        Ok(Classes {
            rows: Vec::from_slice(alloc, rows)?,
        })
    }

    /// How many there are.
    pub fn len(&self) -> u16
        ensures value { result ≡ length self.now }
        ensures few { result ≤ most_classes }
    {
        self.rows.len() as u16
    }

    /// The level of a class, which is below 16.
    #[tactic(auto, using(crate::proofs::Rows::level_steps))]
    pub fn level(&self, class: Class) -> u8
        requires { class < length self.now }
        ensures level { result ≡ (row_at self.now class).level }
        ensures few { result < level_count }
    {
        self.rows[class as usize].level
    }

    /// The priority of a class.
    pub fn priority(&self, class: Class) -> u128
        requires { class < length self.now }
        ensures { result ≡ (row_at self.now class).priority }
    {
        self.rows[class as usize].priority
    }

    /// The cost of a class.
    pub fn cost(&self, class: Class) -> u128
        requires { class < length self.now }
        ensures { result ≡ (row_at self.now class).cost }
    {
        self.rows[class as usize].cost
    }
}
