//! What trials of the top call over files in memory are made of.
//!
//! The crate exists for the tests of the whole program, those of `cq_call_trials` and of the program's crate. It makes
//! what a trial begins with, captures and configurations, among them the worked runs with what they come to,
//! keeps them on a `Disk`, has the top call answer words over it, and compares. The program uses nothing of it.
//!
//! Whether a trial ends as it should is a `bool` here, for which want of memory is a no, and the tests assert it: so a
//! test is short, and its proof too.
#![tactic(auto)]

mod capture;
mod disk;
mod keys;
mod runs;
mod trial;
mod worked;

pub use capture::{FRAME, Frame, MICROSECONDS, Packet, capture_with, put_packet, put_packets};
pub use disk::Disk;
pub use keys::{DEAREST, DEFAULTS, Keys};
pub use runs::{RUNS, RUNS_BY_KEYS, SENT_CAPTURE, THREE_INPUTS, TWO_FOR_ONE};
pub use trial::{
    Call, Left, Told, WRITTEN, all_leave, leaves, leaves_ahead, leaves_within, passes,
    touches_nothing, words_of,
};
pub use worked::Run;
