//! The lists of the inputs and the buffers of the outputs, together.
//!
//! A cell arrives at its list, crosses where a matching says so, and leaves its buffer. The rank machines are told what
//! left, and the limiter takes note of it. Who finds the matching, and by what it is judged, is not known here. The
//! offers of the inputs follow the lists. All memory that arrivals, transfers and departures
//! need is taken when the queues are made.
#![tactic(auto)]

mod gone;
mod queues;
mod sent;
mod standing;

pub use gone::Gone;
pub use queues::Queues;
pub use sent::{release, tell};
