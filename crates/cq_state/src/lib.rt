//! The state of a stopped run, as text: each state has one text, and each text that is allowed is that of one
//! state.
#![tactic(auto)]

mod gather;
mod kind;
mod laws;
mod next;
mod read;
mod state;
mod write;

pub use laws::{state_texts_are_exact, states_have_one_text};
pub use read::read_text;
pub use state::{Head, Named, Seen, Sent, State};
pub use write::{LONGEST_TEXT, StateLong, text_of};
