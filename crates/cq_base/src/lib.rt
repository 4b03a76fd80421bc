//! The plain types of the switch, on which every other crate stands.
//!
//! Ports, slots, cells and keys are plain data. The other types own memory or hide how they are kept,
//! and contracts see what they mean: `Name` is its bytes, `Sequence` its items, `Supply` those that are left,
//! `Room` its items and the room that is left, `Departures` those of a run, and `Arrivals` a map from inputs to cells.
//! The limits of a switch, and of the files of a run, stand here once for all crates.
#![tactic(auto)]

mod arrivals;
mod cell;
mod departures;
mod figures;
mod key;
mod limits;
mod name;
mod number;
mod packed;
mod room;
mod sequence;
mod setup;
mod status;
mod supply;

pub use arrivals::Arrivals;
pub use cell::{Cell, CellId, Class, Departure, Port, Queued, Slot, TagFault, Transfer};
pub use departures::Departures;
pub use figures::{Figures, InputFigures, OutputFigures};
pub use key::{Key, keys_are_ordered};
pub use limits::{
    LEVELS, LONGEST_CONFIGURATION, LONGEST_FILE, MOST_CLASSES, MOST_PORTS, MOST_WORKERS,
};
pub use name::Name;
pub use number::{MOST_DIGITS, digits};
pub use packed::PackedDeparture;
pub use room::Room;
pub use sequence::Sequence;
pub use setup::{ClassRow, Kind, Setup};
pub use status::{NoMemory, Status};
pub use supply::Supply;
