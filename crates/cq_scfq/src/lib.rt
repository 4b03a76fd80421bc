//! The disciplines of the outputs, and among them self-clocked fair queueing.
//!
//! Fair queueing is meant to give each class that has cells waiting a share of what its level gets of the line,
//! whatever the other classes of the level send. That it does is not proved here. Its ranks are tags on a virtual time,
//! which is the rank of the cell of the level that was sent last.
#![tactic(auto)]

mod discipline;
mod fair;

pub use discipline::Discipline;
pub use fair::Fair;
