//! Why a text of lines is not read.

/// Why a text of lines is not read.
#[derive(Clone, Copy, Debug, PartialEq, Eq)]
pub enum LineRefusal {
    /// This line, from 1, is the first that is not allowed there, or is missing.
    Line {
        /// Which line it is.
        line: u64,
    },
    /// Want of memory.
    NoMemory,
}
