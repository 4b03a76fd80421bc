//! The limits of what a configuration says, and what stands where it says nothing.

use cq_base::{LEVELS, LONGEST_FILE};
pub use cq_base::{LONGEST_CONFIGURATION, MOST_CLASSES, MOST_PORTS, MOST_WORKERS};
pub use cq_route::{
    DEFAULT_CELL_BYTES, DEFAULT_CLASS, DEFAULT_COST, DEFAULT_LEVEL, DEFAULT_LIMIT_BYTES,
    DEFAULT_OUTPUT, DEFAULT_PRIORITY, DEFAULT_SLOT_NS, DEFAULT_WORKERS,
};

/// The first version of a configuration.
pub const FIRST_VERSION: u64 = 1;

/// The last version of a configuration.
pub const LAST_VERSION: u64 = 2;

/// The most bytes of a packet that one cell carries.
pub const MOST_CELL_BYTES: u64 = 65_535;

/// The most nanoseconds of a slot: one second.
pub const MOST_SLOT_NS: u64 = 1_000_000_000;

/// The least limit of a capture in bytes: the header of its file.
pub const LEAST_LIMIT_BYTES: u64 = 24;

/// The greatest limit of a capture in bytes.
pub const MOST_LIMIT_BYTES: u64 = LONGEST_FILE as u64;

/// The greatest number of a class, since they count from 0.
pub const GREATEST_CLASS: u16 = MOST_CLASSES as u16 - 1;

/// The greatest number of a port, since they count from 0.
pub const GREATEST_PORT: u16 = MOST_PORTS as u16 - 1;

/// The greatest limit of an output, in cells.
pub const GREATEST_LIMIT: u64 = 1_000_000_000;

/// The most addresses.
pub const MOST_ADDRESSES: usize = 4096;

/// The most rules.
pub const MOST_RULES: usize = 256;

/// The greatest level of a class, since they count from 0.
pub const GREATEST_LEVEL: u64 = LEVELS as u64 - 1;

/// The least cost of a class.
pub const LEAST_COST: u128 = 1;

/// The greatest priority code point (IEEE 802.1Q), of three bits.
pub const GREATEST_PCP: u64 = 7;

/// The greatest EtherType (IEEE 802.3), of two bytes.
pub const GREATEST_ETHER_TYPE: u64 = 65_535;

/// The greatest code point of differentiated services (RFC 2474), of six bits.
pub const GREATEST_DSCP: u64 = 63;

/// The most bytes of a file name.
pub const LONGEST_FILE_NAME: usize = 4096;

/// The bytes of an address as text: six groups of two digits, and five colons.
pub const ADDRESS_TEXT_BYTES: usize = 17;
