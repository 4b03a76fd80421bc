//! The buffers in which cells wait at the outputs.
//!
//! An output sends the most urgent of the cells that have come to it, and an arriving cell is placed at its input by
//! how many more urgent ones wait here. So a buffer is a list in the order of keys, and its contract says exactly
//! where a cell goes in and which one comes out.
#![tactic(auto)]

mod block;
mod blocks;
mod output_buffer;

pub use block::count_before;
pub use output_buffer::OutputBuffer;
