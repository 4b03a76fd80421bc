//! How a run of the program ends, and want of memory, which every layer may meet.
ghost use Rattle.std.specs.Prelude.{◌≡◌};
ghost use Rattle.cq_base.specs.Status.{code_of};

use std::alloc::{AllocError, AllocFailed};

/// Want of memory: what was asked for was not granted.
#[derive(Clone, Copy, Debug, PartialEq, Eq)]
pub struct NoMemory;

impl From<AllocError> for NoMemory {
    fn from(_: AllocError) -> Self {
        NoMemory
    }
}

impl<T: Drop> From<AllocFailed<T>> for NoMemory {
    fn from(_: AllocFailed<T>) -> Self {
        NoMemory
    }
}

/// How a run of the program ends.
#[derive(Clone, Copy, Debug, PartialEq, Eq)]
pub enum Status {
    /// The work is done and all is written.
    Done = 0,
    /// The words are no command.
    Words = 1,
    /// The configuration is refused.
    Configuration = 2,
    /// A capture is refused.
    Capture = 3,
    /// A rank does not fit 128 bits.
    Tag = 4,
    /// A file is missing, or could not be read.
    ReadFault = 5,
    /// A file or an output could not be written.
    WriteFault = 6,
    /// There was no memory for the work.
    NoMemory = 7,
    /// An audit says no.
    AuditNo = 8,
    /// The state of a stopped run is refused, or too long.
    State = 9,
}

impl Status {
    /// The number that the process ends with.
    pub fn code(self) -> u8
        ensures { result ≡ code_of self }
    {
        self as u8
    }
}
