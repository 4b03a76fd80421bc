//! How an output ranks the cells that arrive for it.
//!
//! The level of a cell's class is the first part of its key and its rank the second, and the lesser key is the more
//! urgent. The level is the same at every output, so the discipline of an output is its ranks: `Rank` is the trait of
//! what gives them, and contracts see each as a machine over a list of numbers, whose laws hold whatever the
//! discipline.
#![tactic(auto)]

mod classes;
mod first_come;
mod laws;
mod priority;
mod rank;

pub use classes::Classes;
pub use first_come::FirstCome;
pub use laws::ranks_of_a_class_never_fall;
pub use priority::Priority;
pub use rank::{Rank, TagOverflow};
