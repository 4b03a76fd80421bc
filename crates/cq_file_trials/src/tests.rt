//! The trials: the system's files and those in memory, captures read ahead, and made traffic.
mod host;
mod soak;
mod stream;
mod whole;
