//! Whole runs of a configured switch over the cells that arrive, and the packets that leave it.
//!
//! The run of the fabric is the one run of the definition, whatever the workers do, and it sends and refuses what the
//! ideal switch does. It may stop before a slot, and goes on from any state that can be taken up. What departs is put
//! together into packets, each with the stamp of the slot in which its last cell left.
#![tactic(auto)]

mod fabric_run;
mod ideal_run;
mod idle;
mod laws;
mod packets;
mod packing;
mod parted_run;
mod ports;
mod refusal;

pub use cq_engine::Refused;
pub use fabric_run::{FabricRun, PackedFabricRun, run_fabric, run_fabric_packed};
pub use ideal_run::{IdealRun, run_ideal, run_ideal_packed};
pub use idle::outputs_send_once_a_slot;
pub use laws::{
    each_packet_is_written_or_counted, fabric_sends_as_the_ideal_switch, runs_leave_whole_packets,
    taken_up_states_can_go_on, whole_packets_arrive,
};
pub use packets::packets_of;
pub use packing::{Packing, packets_of_all};
pub use parted_run::{Parted, part_fabric, resume_fabric};
pub use refusal::RunRefusal;
