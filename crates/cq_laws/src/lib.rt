//! The fabric of a switch, and why it sends what an ideal output-queued switch sends.
//!
//! The definitions say what a slot of the fabric is: cells arrive, a matching is transferred, the outputs
//! send, and again a matching is transferred. The laws say that each output sends, slot by slot, what it
//! sends in the ideal switch, whichever stable matchings are taken, and that the run is one where they are
//! those that are best for the inputs. Nothing here runs: the crates above are held to these definitions.
#![tactic(auto)]

mod emulation;
mod ending;
mod entering;
mod example;
mod figures;
mod frozen;
mod least_slack;
mod limits;
mod phases;
mod quiet;
mod runs;
mod slack;

pub use cq_ideal::Refused;
pub use emulation::{any_stable_matching, empty_together, same_departures};
pub use ending::{more_slots_add_nothing, one_whole_run, runs_end_together};
pub use entering::cells_find_their_places;
pub use example::worked_run;
pub use figures::figures_add_up;
pub use frozen::{Frozen, sound_fabrics_are_in_step};
pub use least_slack::{least_slack_is_on_arrival, slack_never_falls};
pub use limits::{
    limited_runs_are_of_admitted, limited_runs_end_together, outputs_hold_as_many,
    quiet_slots_leave_marks, runs_without_limits_are_as_before,
};
pub use phases::phases_keep_the_fabric;
pub use quiet::quiet_slots_add_nothing;
pub use runs::{
    input_best_is_stable, one_run, runs_go_on, runs_have_parts, transfers_tell_the_matching,
};
pub use slack::{head_of_line, slack_after_arrivals, slack_after_departures, slack_after_matching};
