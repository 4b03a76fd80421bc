//! What the tables say where nothing is stated.

/// The bytes of a cell where none are stated.
pub const DEFAULT_CELL_BYTES: u64 = 64;

/// The nanoseconds of a slot where none are stated.
pub const DEFAULT_SLOT_NS: u64 = 512;

/// The limit of a capture in bytes where none is stated.
pub const DEFAULT_LIMIT_BYTES: u64 = 67_108_864;

/// The workers where none are stated.
pub const DEFAULT_WORKERS: u64 = 1;

/// The output to which frames for an unknown address go, where none is stated.
pub const DEFAULT_OUTPUT: u64 = 0;

/// The class to which packets that meet no rule go, where none is stated.
pub const DEFAULT_CLASS: u64 = 0;

/// The level of a class where none is stated.
pub const DEFAULT_LEVEL: u64 = 0;

/// The priority of a class where none is stated.
pub const DEFAULT_PRIORITY: u128 = 0;

/// The cost of a class where none is stated.
pub const DEFAULT_COST: u128 = 1;
