//! The ideal output-queued switch, which the fabric is measured by.
//!
//! Each output has one list, and a cell that arrives is in the list of its output at once, as if the
//! switch could move any number of cells in a slot. No real switch does that; what such a switch sends
//! is what ours is to send.
#![tactic(auto)]

mod ending;
mod flows;
mod ideal;
mod laws;
mod limited_ending;
mod limiter;
mod limits;
mod newcomers;
mod queue;
mod queues;
mod ranks;
mod refused;
mod send;
mod taking;

pub use ending::{ideal_run_ends, last_slot_departs, more_slots_send_nothing};
pub use flows::flows_leave_as_they_came;
pub use ideal::Ideal;
pub use laws::ideal_run_is_whole;
pub use limited_ending::{limited_run_ends, more_limited_slots_send_nothing};
pub use limiter::Limiter;
pub use limits::{
    each_packet_leaves_or_is_refused, flows_leave_in_packets, limited_run_is_run_of_admitted,
    limited_run_is_whole, nothing_is_refused_without_limits, refused_counts_add_up,
    whole_packets_are_admitted, worked_discard,
};
pub use newcomers::Newcomers;
pub use ranks::Ranks;
pub use refused::{Refused, count_refused, none_refused};
pub use taking::take_in;
