//! Why a text is not taken as a state.
ghost use Rattle.std.specs.Prelude.{◌≡◌};
ghost use Rattle.cq_resume.specs.Refused.{refusal_of};
ghost use Rattle.cq_resume.specs.declared.refusal.StateRefusal.TheVariants.{NoMemory as no_memory};

use cq_base::NoMemory;
use cq_lines::LineRefusal;

/// Why a text is not taken as a state.
#[derive(Clone, Copy, Debug, PartialEq, Eq)]
pub enum StateRefusal {
    /// This line, from 1, is the first that is not allowed there, or is missing.
    Text {
        /// Which line it is.
        line: u64,
    },
    /// It is the state of a switch of another shape, or over another schedule.
    Shape,
    /// This clause is the first that does not hold of the state.
    Unsound {
        /// Which clause it is, from 1.
        clause: u8,
    },
    /// Want of memory.
    NoMemory,
}

impl From<NoMemory> for StateRefusal {
    ghost from_gives = { λ _ refusal. refusal ≡ no_memory };

    fn from(_: NoMemory) -> Self {
        StateRefusal::NoMemory
    }
}

impl From<LineRefusal> for StateRefusal {
    ghost from_gives = { λ text refusal. refusal ≡ refusal_of text };

    fn from(refusal: LineRefusal) -> Self {
        match refusal {
            LineRefusal::Line { line } => StateRefusal::Text { line },
            LineRefusal::NoMemory => StateRefusal::NoMemory,
        }
    }
}
