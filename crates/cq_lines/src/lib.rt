//! Lines of numbers, of which a state is made and by which a log is read: read back exactly as they are written.
//!
//! A line is a word, then fields, each behind one blank, and one line feed. A field is a number in decimal
//! digits without leading zeros, or `-`. So each line has one spelling, and what is read is what it spells.
#![tactic(auto)]

mod fields;
mod laws;
mod number;
mod range;
mod refusal;
mod write;

pub use fields::{behind, take_field, take_fields};
pub use laws::{lines_are_lines_of_words, lines_are_read_in_one_way};
pub use number::take_number;
pub use range::{Range, take_fields_within};
pub use refusal::LineRefusal;
pub use write::put_line;
