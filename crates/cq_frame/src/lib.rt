//! The fields of an Ethernet frame, by which packets are told apart.
//!
//! A capture may end a frame anywhere, so each field is there or not, and no frame is refused.
#![tactic(auto)]

mod frame;

pub use frame::{FrameParts, destination, parts};
