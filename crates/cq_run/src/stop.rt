//! Why a run stops before its work is done.
ghost use Rattle.std.specs.Prelude.{◌≡◌};
ghost use Rattle.cq_run.specs.Terms.{stop_status};
ghost use Rattle.cq_run.specs.declared.stop.Halt.TheVariants.{NoMemory as no_memory};
ghost use Rattle.cq_run.specs.declared.stop.Stop.TheVariants.{Cut, Halted};

use crate::Refusal;
use cq_base::{Name, NoMemory, Status};

/// Why a run stops before it writes its first byte.
#[derive(Drop)]
pub enum Halt {
    /// The words, or what was read, are refused.
    Refused {
        /// What they are refused for.
        refusal: Refusal,
    },
    /// Reading a name met a fault.
    Unread {
        /// The name.
        name: Name,
    },
    /// Want of memory.
    NoMemory,
}

/// What could not be written whole.
#[derive(Drop)]
pub enum Unwritten {
    /// A file.
    File {
        /// Its name.
        name: Name,
    },
    /// The text on standard output.
    Output,
}

/// Why a run stops before its work is done.
#[derive(Drop)]
pub enum Stop {
    /// It stopped before it wrote its first byte.
    Halted {
        /// Why.
        halt: Halt,
    },
    /// Its writing was cut short.
    Cut {
        /// What could not be written whole.
        at: Unwritten,
    },
}

impl From<NoMemory> for Halt {
    ghost from_gives = { λ _ halt. halt ≡ no_memory };

    fn from(_: NoMemory) -> Self {
        Halt::NoMemory
    }
}

impl From<NoMemory> for Stop {
    ghost from_gives = { λ _ stop. stop ≡ Halted no_memory };

    fn from(_: NoMemory) -> Self {
        Stop::Halted {
            halt: Halt::NoMemory,
        }
    }
}

impl From<Halt> for Stop {
    ghost from_gives = { λ halt stop. stop ≡ Halted halt };

    fn from(halt: Halt) -> Self {
        Stop::Halted { halt }
    }
}

impl From<Unwritten> for Stop {
    ghost from_gives = { λ at stop. stop ≡ Cut at };

    fn from(at: Unwritten) -> Self {
        Stop::Cut { at }
    }
}

impl Stop {
    /// The status of a run that stops so.
    pub fn status(&self) -> Status
        ensures { result ≡ stop_status self.now }
    {
        match self {
            Stop::Halted {
                halt: Halt::Refused { refusal },
            } => refusal.status(),
            Stop::Halted {
                halt: Halt::Unread { .. },
            } => Status::ReadFault,
            Stop::Halted {
                halt: Halt::NoMemory,
            } => Status::NoMemory,
            Stop::Cut { .. } => Status::WriteFault,
        }
    }
}
