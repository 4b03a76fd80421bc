//! Reads a state, and judges it.
ghost use Rattle.std.specs.Prelude.{◌≡◌, IfErr, IfOk};
ghost use Rattle.cq_resume.specs.Terms.{IsRead, IsRefusal, IsScheduleOf, switch_of, text_of_taken, AreTables};

use crate::shape::has_shape;
use crate::sound::judge;
use crate::taken::take_up;
use crate::{StateRefusal, Taken};
use cq_cells::Schedule;
use cq_route::Tables;
use cq_state::read_text;
use std::alloc::Global;

/// The state whose text this is, if it is a sound one of the switch that the tables describe, over their schedule. What
/// is taken up tells the text again.
///
/// - `Text`: the line that it names is the first that is not allowed there, or is missing.
/// - `Shape`: it is the text of a state, but of a switch of another shape or over another schedule.
/// - `Unsound`: it is the text of such a state, and this clause is the first that does not hold of it.
/// - `NoMemory`: there was not the memory for it. None is taken but for what the lines tell.
pub fn read_state(
    alloc: Global,
    bytes: &[u8],
    tables: &Tables,
    schedule: &Schedule,
) -> Result<Taken, StateRefusal>
    requires tables { AreTables tables.now }
    requires schedule { IsScheduleOf tables.now schedule.now }
    ensures read { IfOk result (IsRead (switch_of tables.now schedule.now) bytes.now) }
    ensures written { IfOk result (λ taken. text_of_taken (switch_of tables.now schedule.now) taken ≡ bytes.now) }
    ensures cause { IfErr result (IsRefusal (switch_of tables.now schedule.now) bytes.now) }
{
    let state = read_text(alloc, bytes)?;
    if !has_shape(&state, tables, schedule) {
        return Err(StateRefusal::Shape);
    }
    let (found, tally) = judge(alloc, &state, tables, schedule)?;
    Ok(take_up(alloc, state, found, tally)?)
}
