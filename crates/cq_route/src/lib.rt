//! What a switch is told of its ports, addresses and rules, and where its packets go by that.
//!
//! The tables are plain data. A configuration is read elsewhere; here stand the tables that it gives,
//! what it means that they are in range, and the route of a packet.
#![tactic(auto)]

mod defaults;
mod directory;
mod route;
mod tables;

pub use defaults::{
    DEFAULT_CELL_BYTES, DEFAULT_CLASS, DEFAULT_COST, DEFAULT_LEVEL, DEFAULT_LIMIT_BYTES,
    DEFAULT_OUTPUT, DEFAULT_PRIORITY, DEFAULT_SLOT_NS, DEFAULT_WORKERS,
};
pub use directory::Directory;
pub use tables::{AddressRow, PortRow, RuleRow, Tables};
