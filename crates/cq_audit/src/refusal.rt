//! Why a log is not that of a stable run.
ghost use Rattle.std.specs.Prelude.{◌≡◌};
ghost use Rattle.cq_audit.specs.Terms.{refusal_of, unread};
ghost use Rattle.cq_audit.specs.declared.refusal.AuditRefusal.TheVariants.{NoMemory as no_memory};

use crate::phase::PhaseFault;
use crate::replay::SlotFault;
use cq_base::{NoMemory, Port, Slot};
use cq_lines::LineRefusal;

/// Why a log is not that of a stable run: the first of these that applies. The faults of phases come in the order of
/// the phases.
#[derive(Clone, Copy, Debug, PartialEq, Eq)]
pub enum AuditRefusal {
    /// This line is the first that is none of a log, or is not after the line before it.
    Line {
        /// Which line it is, from 1.
        line: u64,
    },
    /// In this phase the line of this input, the least such, does not name its first cell for an output that no line
    /// of a lesser input names.
    Transfer {
        /// The slot of the phase.
        slot: Slot,
        /// The phase, 1 or 2.
        phase: u8,
        /// The input.
        input: Port,
    },
    /// The pairs of this phase are a matching that is not stable: this is the first pair, by input and then output,
    /// that is offered and not joined, and of which neither has a partner that it prefers.
    Blocking {
        /// The slot of the phase.
        slot: Slot,
        /// The phase, 1 or 2.
        phase: u8,
        /// The input.
        input: Port,
        /// The output.
        output: Port,
    },
    /// This line is the first of a slot that the run does not reach.
    Left {
        /// Which line it is, from 1.
        line: u64,
    },
    /// Want of memory.
    NoMemory,
}

impl AuditRefusal {
    /// What is wrong with the lines of a slot, as a refusal of the log.
    pub(crate) fn of_slot(slot: Slot, fault: SlotFault) -> AuditRefusal
        ensures { result ≡ refusal_of slot fault }
    {
        let phase = fault.phase;
        match fault.fault {
            PhaseFault::WrongLine(input) => AuditRefusal::Transfer { slot, phase, input },
            PhaseFault::Blocking(input, output) => AuditRefusal::Blocking {
                slot,
                phase,
                input,
                output,
            },
        }
    }
}

impl From<NoMemory> for AuditRefusal {
    ghost from_gives = { λ _ refusal. refusal ≡ no_memory };

    fn from(_: NoMemory) -> Self {
        AuditRefusal::NoMemory
    }
}

impl From<LineRefusal> for AuditRefusal {
    ghost from_gives = { λ log refusal. refusal ≡ unread log };

    fn from(refusal: LineRefusal) -> Self {
        match refusal {
            LineRefusal::Line { line } => AuditRefusal::Line { line },
            LineRefusal::NoMemory => AuditRefusal::NoMemory,
        }
    }
}
