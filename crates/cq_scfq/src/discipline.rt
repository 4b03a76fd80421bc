//! The discipline of an output, as a configuration states it.
ghost use Rattle.std.specs.Prelude.{◌≡◌, ◌<◌, ◌≤◌, IfOk, OnOk, length, map};
ghost use Rattle.std.specs.List.{AllByRecursion};
ghost use Rattle.cq_base.specs.Limits.{most_ports};
ghost use Rattle.cq_rank.specs.Classes.{AreClasses};
ghost use Rattle.cq_rank.specs.Switch.{AreForOneSwitch, class_count};
ghost use Rattle.cq_scfq.specs.Discipline.{fixed_of, kept_of, kind_of, machine_from, state_of};
ghost use Rattle.cq_scfq.specs.Disciplines.{machine_of, machines_of, opening_of, openings_of};

use crate::Fair;
use cq_base::{Class, ClassRow, Kind, NoMemory, Setup};
use cq_rank::{FirstCome, Priority, Rank, TagOverflow};
use std::alloc::Global;

/// What ranks the cells of an output, whatever its discipline.
#[derive(Drop)]
pub enum Discipline {
    /// First come, first served.
    FirstCome(FirstCome),
    /// Strict priority.
    Priority(Priority),
    /// Self-clocked fair queueing.
    Fair(Fair),
}

impl Discipline {
    /// One for each port of a switch, in order: each of the port's kind, over the classes of the switch, and
    /// in its opening state. The error is want of memory.
    pub fn all(alloc: Global, setup: &Setup) -> Result<Vec<Discipline>, NoMemory>
        requires { AreClasses setup.now.classes }
        ensures kinds { IfOk result (λ all. map kind_of all.items ≡ setup.now.kinds) }
        ensures rows { IfOk result (λ all. AllByRecursion (λ one. kept_of one ≡ setup.now.classes) all.items) }
        ensures machines { IfOk result (λ all. map machine_from (map fixed_of all.items) ≡ machines_of setup.now) }
        ensures states { IfOk result (λ all. map state_of all.items ≡ openings_of setup.now) }
        ensures classes { OnOk result (0 < length setup.now.kinds → class_count (machines_of setup.now)
            ≡ length setup.now.classes) }
        ensures one_switch { OnOk result (0 < length setup.now.kinds → length setup.now.kinds ≤ most_ports
            → AreForOneSwitch (machines_of setup.now)) }
    {
        let mut all = Vec::new(alloc);
        'kinds: for kind in setup.kinds.as_slice() {
            all.push(Discipline::of(alloc, *kind, setup.classes.as_slice())?)?;
        }
        Ok(all)
    }

    // One of the kind, over the classes.
    #[tactic(auto, using(cq_rank::specs::Classes::rows_again))]
    fn of(alloc: Global, kind: Kind, classes: &[ClassRow]) -> Result<Discipline, NoMemory>
        requires { AreClasses classes.now }
        ensures kind { IfOk result (λ one. kind_of one ≡ kind) }
        ensures rows { IfOk result (λ one. kept_of one ≡ classes.now) }
        ensures machine { IfOk result (λ one. machine_from (fixed_of one) ≡ machine_of kind classes.now) }
        ensures state { IfOk result (λ one. state_of one ≡ opening_of kind classes.now) }
    {
        match kind {
            Kind::FirstCome => Ok(Discipline::FirstCome(FirstCome::new(alloc, classes)?)),
            Kind::Priority => Ok(Discipline::Priority(Priority::new(alloc, classes)?)),
            Kind::Fair => Ok(Discipline::Fair(Fair::new(alloc, classes)?)),
        }
    }
}

// What the machine of a discipline answers, whichever it is.
macro_rules! by_machine {
    ($discipline:expr, $machine:ident => $answer:expr) => {
        match $discipline {
            Discipline::FirstCome($machine) => $answer,
            Discipline::Priority($machine) => $answer,
            Discipline::Fair($machine) => $answer,
        }
    };
}

impl Rank for Discipline {
    ghost use Rattle.cq_scfq.specs.Discipline.{machine_laws};

    ghost fixed = { fixed_of };

    ghost state = { state_of };

    ghost machine = { machine_from };

    ghost laws = { machine_laws };

    fn classes(&self) -> u16 {
        by_machine!(self, machine => machine.classes())
    }

    fn level(&self, class: Class) -> u8 {
        by_machine!(self, machine => machine.level(class))
    }

    fn rank(&mut self, class: Class) -> Result<u128, TagOverflow> {
        by_machine!(self, machine => machine.rank(class))
    }

    fn sent(&mut self, level: u8, rank: u128) {
        by_machine!(self, machine => machine.sent(level, rank))
    }

    fn idle(&mut self) {
        by_machine!(self, machine => machine.idle())
    }

    fn width(&self) -> u16 {
        by_machine!(self, machine => machine.width())
    }

    fn number(&self, at: u16) -> u128 {
        by_machine!(self, machine => machine.number(at))
    }

    fn put(&mut self, at: u16, number: u128) {
        by_machine!(self, machine => machine.put(at, number))
    }
}
