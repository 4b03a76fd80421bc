//! The transfers that the lines of a phase tell.
ghost use Rattle.std.specs.Prelude.{◌≡◌, ◌≤◌, IfErr, OnErr, OnOk, length};
ghost use Rattle.cq_audit.specs.Terms.{CanCross, AreNoted, HaveCrossed, AreOfPhase, IsPhaseFault};

use crate::phase::{PhaseFault, stable_told};
use cq_base::{Room, Slot, Transfer};
use cq_fabric::Queues;

/// Makes the transfers that the lines of a phase tell, and notes them, where they are those of a stable matching. The
/// error is the first fault of the lines, and then the queues and `note` are as before. It takes no memory.
#[tactic(auto, using(crate::proofs::Crossings::cross_steps))]
pub fn cross(
    queues: &mut Queues,
    slot: Slot,
    phase: u8,
    lines: &[Transfer],
    note: &mut Room<Transfer>,
) -> Result<(), PhaseFault>
    requires cells { CanCross queues.old }
    requires lines { AreOfPhase (length queues.old.inputs) slot phase lines.now }
    requires note { length queues.old.inputs ≤ note.old.spare }
    ensures crossed { OnOk result (HaveCrossed slot phase lines.now queues.old queues.new) }
    ensures noted { OnOk result (AreNoted lines.now note.old note.new) }
    ensures fault { IfErr result (IsPhaseFault queues.old.inputs lines.now) }
    ensures queues_stay { OnErr result (queues.new ≡ queues.old) }
    ensures note_stays { OnErr result (note.new ≡ note.old) }
{
    let pairs = stable_told(queues.lists(), queues.offers(), slot, phase, lines)?;
    queues.cross(pairs.matching(), slot, phase, note);
    Ok(())
}
