//! The lists in which cells wait at the inputs.
//!
//! An input of the switch keeps its cells in one list, most wanted first, and a cell that arrives is pushed in
//! where its urgency places it. Where it goes in is the whole rule by which the switch keeps up with an ideal
//! one, so the contract says the place exactly.
#![tactic(auto)]

mod block;
mod fingers;
mod input_list;
mod places;
mod pool;
mod sum;
mod summed_blocks;

pub use input_list::InputList;
