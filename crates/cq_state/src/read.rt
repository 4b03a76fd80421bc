//! Reads the text of a state.
ghost use Rattle.std.specs.Prelude.{◌≡◌, IfOk, IfErr};
ghost use Rattle.cq_lines.specs.Refusals.{IsCause};
ghost use Rattle.cq_state.specs.State.{IsInRange, state_text};
ghost use Rattle.cq_state.specs.StateText.{IsStateFault};

use crate::kind::MOST_FIELDS;
use crate::next::{Place, next_line};
use crate::state::State;
use cq_lines::LineRefusal;
use std::alloc::Global;

/// The state whose text this is, with its numbers in their ranges. The line that a refusal names is the first
/// that is not allowed there, or is missing. No memory is taken but for what the lines that were read tell.
#[tactic(auto, using(crate::proofs::Reading::reading_steps))]
pub fn read_text(alloc: Global, text: &[u8]) -> Result<State, LineRefusal>
    ensures read { IfOk result (λ state. IsInRange state × (text.now ≡ state_text state)) }
    ensures cause { IfErr result (IsCause (IsStateFault text.now)) }
{
    let mut told = State::untold(alloc);
    let mut place = Place::first();
    let mut rest = text;
    let mut line: u64 = 1;
    let mut to = [None; MOST_FIELDS];
    'lines: while let Some((kind, count, next, behind)) = next_line(place, rest, &mut to) {
        told.add(alloc, kind, &to[..count])
            .or(Err(LineRefusal::NoMemory))?;
        place = next;
        rest = behind;
        line += 1;
    }
    if rest.is_empty() && place.may_end() {
        Ok(told)
    } else {
        Err(LineRefusal::Line { line })
    }
}
