//! One slot of the fabric of a switch, as code.
//!
//! The engine keeps the cells that wait at the inputs and at the outputs, and the machines that rank them.
//! A slot is exactly the fabric slot of the definitions: arrivals, a matching, departures, and a second
//! matching. Workers propose at once where a matching is found. All memory that a slot needs is taken when the
//! engine is made.
#![tactic(auto)]

mod copied;
mod depart;
mod engine;
mod laws;
mod measure;
mod settle;
mod straight;

pub use cq_base::{Figures, InputFigures, OutputFigures};
pub use cq_crew::{Gate, OpenGate};
pub use cq_ideal::Refused;
pub use cq_laws::Frozen;
pub use engine::{Engine, Seen};
pub use laws::cells_are_kept;
