//! Input that is refused, files that fail, and configurations: each with its status and its line.
mod audited;
mod configured;
mod damaged;
mod failing;
mod faults;
mod parted;
mod read_ahead;
mod refused;
mod words;
