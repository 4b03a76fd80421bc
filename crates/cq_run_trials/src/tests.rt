//! What no clause says of arrivals, runs, packets, states and audits.
mod audit;
mod cells;
mod given;
mod reasm;
mod simulate;
mod state;
