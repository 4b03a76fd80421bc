//! What no clause says of configurations.
mod tables;
