//! Checks the log and the trace of any maker.
//!
//! A log is read line by line. Then a fabric goes by its lines, phase by phase: they are held against what the lists of
//! the inputs offer, and their transfers are made. Nothing here knows how a matching is found.
#![tactic(auto)]

mod audit;
mod blocking;
mod crossing;
mod laws;
mod log;
mod pairs;
mod parted;
mod phase;
mod refusal;
mod replay;
mod told;
mod trace;
mod transfer;

pub use audit::audit_log;
pub use crossing::cross;
pub use laws::{
    audits_are_exact, logs_are_exact, phases_are_exact, traces_are_exact, transfers_tell_the_run,
};
pub use log::read_log;
pub use pairs::Pairs;
pub use parted::part;
pub use phase::{PhaseFault, stable_told};
pub use refusal::AuditRefusal;
pub use trace::audit_trace;
