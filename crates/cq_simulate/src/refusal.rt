//! Why a run has no result.
ghost use Rattle.std.specs.Prelude.{◌≡◌};
ghost use Rattle.cq_simulate.specs.declared.refusal.RunRefusal.TheVariants.{NoMemory as no_memory, Tag as tag};

use cq_base::{NoMemory, TagFault};

/// Why a run has no result.
#[derive(Clone, Copy, Debug, PartialEq, Eq)]
pub enum RunRefusal {
    /// A rank does not fit 128 bits: the first such fault, by slot and then by input.
    Tag(TagFault),
    /// Want of memory.
    NoMemory,
}

impl From<NoMemory> for RunRefusal {
    ghost from_gives = { λ _ refusal. refusal ≡ no_memory };

    fn from(_: NoMemory) -> Self {
        RunRefusal::NoMemory
    }
}

impl From<TagFault> for RunRefusal {
    ghost from_gives = { λ fault refusal. refusal ≡ tag fault };

    fn from(fault: TagFault) -> Self {
        RunRefusal::Tag(fault)
    }
}
