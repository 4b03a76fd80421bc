//! What comes in the slots of a run over a schedule.
//!
//! A run begins with room for all cells that come, and it skips slots in which none comes. So this says how many come
//! at each input and for each output, and from which slot on the next one comes. It knows of no switch.
#![tactic(auto)]

mod rooms;
mod stretch;

pub use rooms::{rooms_from, rooms_to};
pub use stretch::{quiet_near, quiet_until};
