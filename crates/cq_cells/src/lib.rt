//! When the cells of captured packets arrive.
//!
//! A packet is cut into cells, which arrive in consecutive slots from the slot of its stamp on, or from
//! a later one where the packet before it still arrives. A `Schedule` answers what arrives in a slot.
#![tactic(auto)]

mod coming;
mod laws;
mod line;
mod nearby;
mod routes;
mod schedule;
mod segments;
mod t0;

pub use coming::Coming;
pub use laws::{arrivals_end_early, one_cell_arrives_a_slot, packets_arrive_in_order};
pub use schedule::Schedule;
pub use segments::cells_of;
