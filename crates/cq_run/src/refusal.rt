//! What words and files are refused for.
ghost use Rattle.std.specs.Prelude.{◌≡◌};
ghost use Rattle.cq_run.specs.Terms.{meaning_of};

use crate::Denial;
use cq_base::{Name, Status, TagFault};
use cq_pcap::PcapRefusal;

/// What is wrong with a capture.
#[derive(Clone, Copy, Debug, PartialEq, Eq)]
pub enum CaptureFault {
    /// Numbers 1 to 7, as `PcapRefusal` lists them: its bytes have this fault first. Want of memory is none.
    Read(PcapRefusal),
    /// Number 8: its file is too long.
    Long {
        /// How many bytes it may have.
        limit: u64,
    },
}

/// What is wrong with the state of a stopped run: the first of these that applies.
#[derive(Clone, Copy, Debug, PartialEq, Eq)]
pub enum StateFault {
    /// S4: its text has more than 268,435,456 bytes, as it is read or would be written.
    Long,
    /// S1: this line of its text is the first that is not allowed there, or is missing.
    Line {
        /// Which line it is, from 1.
        line: u64,
    },
    /// S2: it is of a switch of another shape, or over other captures.
    Shape,
    /// S3: this clause is the first that does not hold of it.
    Unsound {
        /// Which clause it is, from 1.
        clause: u8,
    },
}

/// What words and files are refused for.
#[derive(Drop)]
pub enum Refusal {
    /// The words are no command.
    Words,
    /// A name to be read is not there.
    Missing {
        /// The name.
        name: Name,
    },
    /// The configuration is refused, by its first fault.
    Configuration {
        /// The number of what is wrong.
        code: u8,
        /// The path of the key where it is wrong, or `-` for the whole text.
        path: Name,
    },
    /// The capture of an input is at fault.
    Capture {
        /// The input, from 0.
        input: u16,
        /// What is wrong with it.
        fault: CaptureFault,
    },
    /// A rank does not fit 128 bits.
    Tag {
        /// Which cell has it.
        fault: TagFault,
    },
    /// An audit says no.
    Audit {
        /// What it says no to.
        denial: Denial,
    },
    /// The state of a stopped run is refused, or too long.
    State {
        /// What is wrong with it.
        fault: StateFault,
    },
}

impl Refusal {
    /// The status of a run that ends with this refusal.
    pub fn status(&self) -> Status
        ensures { result ≡ (meaning_of self.now).status }
    {
        match self {
            Refusal::Words => Status::Words,
            Refusal::Missing { .. } => Status::ReadFault,
            Refusal::Configuration { .. } => Status::Configuration,
            Refusal::Capture { .. } => Status::Capture,
            Refusal::Tag { .. } => Status::Tag,
            Refusal::Audit { .. } => Status::AuditNo,
            Refusal::State { .. } => Status::State,
        }
    }
}
