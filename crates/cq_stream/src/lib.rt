//! Readers that decode captures ahead of their user, each in a thread of its own.
//!
//! `pair` makes a `Reader` of the bytes of a capture and the `Intake` of its items, which a bounded ring
//! joins. A second ring of room 1 brings the reader its one order: to send what it finds, or to find
//! nothing and hand back the bytes. The reader finds its records by `form_of` and `row_at`, as
//! `read_capture` does, sends a row for each, and then `Ended`. `Intake::meet` brings both ends of both
//! rings to one thread again. There they show that the order which the reader obeyed is the one that it
//! was told, and that what was taken is what was sent. So `Intake::close` makes the capture of the rows
//! that were taken, and nothing is decoded anew.
#![tactic(auto)]

mod answer;
mod finding;
mod intake;
mod item;
mod making;
mod outcome;
mod reader;
mod watch;

pub use intake::Intake;
pub use item::{Item, Order};
pub use making::pair;
pub use outcome::{Done, DoneOf};
pub use reader::Reader;
pub use watch::{OpenWatch, Watch};
