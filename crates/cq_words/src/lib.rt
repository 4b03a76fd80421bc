//! The words of the program's command line, and which command they are.
//!
//! Words are judged by a grammar of eight forms, in `specs/Words.antt`. What is no command is answered
//! by None, and `clap` sees nothing of it. The words of a command are split into its values by `clap`,
//! and the numbers among them are read here. `proofs/Splitting.antt` shows that `clap` refuses no
//! command and hands out the words as they are, so want of memory is the only error.
//!
//! `stream CONFIG` is a ninth form, and no command: it is judged as `run CONFIG` by the one call that may
//! read ahead (`specs/Streamed.antt`).
#![tactic(auto)]

mod command;
mod judge;
mod number;
mod split;
mod stream_words;
mod words;

pub use command::Command;
pub use stream_words::streamed;
pub use words::command_of;
