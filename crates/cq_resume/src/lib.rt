//! A stopped run, and what it comes to where it goes on.
//!
//! The text of a state names cells by when and where they arrived. Here they are looked up among the cells that arrive,
//! and the state is judged: whether it is one that the switch could be in.
#![tactic(auto)]

mod between;
mod floors;
mod flows;
mod found;
mod laned;
mod laws;
mod neighbours;
mod order;
mod packets;
mod read;
mod refusal;
mod shape;
mod slack;
mod sound;
mod taken;
mod write;

pub use cq_laws::Frozen;
pub use cq_state::StateLong;
pub use laws::{one_parted_run, one_resumed_run, parts_join, states_are_read_in_one_way};
pub use read::read_state;
pub use refusal::StateRefusal;
pub use taken::Taken;
pub use write::state_bytes;
