//! The top call: what words and files come to.
//!
//! A run has two halves. First the words and what they name are judged, and nothing is written: they
//! come to a plan, or to the first refusal. Then the plan is performed. `specs/Verdict.antt` says what
//! is judged, and `specs/Refusals.antt` what each refusal comes to; the contracts of `switch_top`, and of
//! `stream_top` around it, say what every answer of the program means. Captures are read by the grammar of
//! their format: `specs/Reader.antt`.
#![tactic(auto)]

mod ahead;
mod build;
mod decoding;
mod denial;
mod judge;
mod laws;
mod parting;
mod perform;
mod plan;
mod reading;
mod refusal;
mod running;
mod say;
mod stop;
mod stream;
mod switching;
mod top;

pub use cq_simulate::{
    FabricRun, IdealRun, PackedFabricRun, Refused, RunRefusal, packets_of, run_fabric,
    run_fabric_packed, run_ideal, run_ideal_packed,
};
pub use cq_words::{Command, command_of};
pub use denial::Denial;
pub use laws::{captures_are_read_in_one_way, runs_are_audited, workers_change_nothing};
pub use refusal::{CaptureFault, Refusal, StateFault};
pub use stop::{Halt, Stop, Unwritten};
pub use stream::stream_top;
pub use top::switch_top;
