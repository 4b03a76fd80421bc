//! Made traffic, for long runs of the switch.
//!
//! It is the same for the same seed: a packet arrives at each input in each slot, and a generator of
//! random words says where it goes and how urgent it is. The definitions cite the generator's own, so
//! that the packets are exactly those of its words.
#![tactic(auto)]

mod captures;
mod draws;
mod laws;
mod packets;
mod soak;
mod tables;

pub use laws::packets_go_by_their_words;
pub use soak::{Soak, make};
