//! Packets put together again from their cells.
//!
//! The cells of one input and one class leave an output in the order in which they arrived, so of each
//! such pair at most one packet is open at a time. A `Joiner` keeps the bytes of the open packets, and
//! gives a packet whole at its last cell.
#![tactic(auto)]

mod joiner;
mod laws;
mod open_packets;

pub use joiner::{Joined, Joiner};
pub use laws::{pieces_give_the_frame, whole_packets_are_given};
