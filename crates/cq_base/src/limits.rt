//! The limits of a switch, and of the files of a run.

/// The most ports. They are numbered from 0.
pub const MOST_PORTS: usize = 64;

/// The most classes. They are numbered from 0.
pub const MOST_CLASSES: usize = 16;

/// How many levels there are: they are numbered from 0, and a cell of a lesser one is the more urgent.
pub const LEVELS: usize = 16;

/// The most workers.
pub const MOST_WORKERS: usize = 64;

/// The most bytes of a file that is kept whole: a capture, a state, or a log or a trace that is read.
pub const LONGEST_FILE: usize = 1 << 28;

/// The most bytes of a configuration.
pub const LONGEST_CONFIGURATION: usize = 1_048_576;
