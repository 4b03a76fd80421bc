//! The figures of a configuration: one integer each.
ghost use Rattle.std.specs.Prelude.{◌≡◌, None, IfOk, IfErr};
ghost use Rattle.cq_tables.specs.Terms.{table_view, Refuses, first, AreFigures, figure_keys, figures_of, checks_of};

use crate::entries::Entries;
use crate::limits::{
    DEFAULT_CELL_BYTES, DEFAULT_CLASS, DEFAULT_LIMIT_BYTES, DEFAULT_OUTPUT, DEFAULT_SLOT_NS,
    DEFAULT_WORKERS, FIRST_VERSION, GREATEST_CLASS, GREATEST_PORT, LAST_VERSION, LEAST_LIMIT_BYTES,
    MOST_CELL_BYTES, MOST_LIMIT_BYTES, MOST_SLOT_NS, MOST_WORKERS,
};
use crate::refusal::TableRefusal;
use crate::version::Version;
use cq_base::{Class, Port};

/// The version, and the figures as the fields of these names in [`Tables`](cq_route::Tables), which say what they mean.
#[derive(Clone, Copy)]
pub struct Figures {
    pub version: Version,
    pub cell_bytes: u32,
    pub slot_ns: u64,
    pub limit_bytes: u64,
    pub workers: u16,
    pub default_output: Port,
    pub default_class: Class,
}

/// The figures of the table, each in its range. The error is the first check that does not hold, or want of memory.
#[tactic(auto, unfolding(crate::specs::Check::first))]
pub fn figures_in(entries: Entries) -> Result<Figures, TableRefusal>
    ensures held { IfOk result (λ _. first (checks_of (table_view entries.entry.table.now)
        (figure_keys entries.entry.place)) ≡ None) }
    ensures value { IfOk result (λ figures. figures ≡ figures_of (table_view entries.entry.table.now)) }
    ensures in_range { IfOk result AreFigures }
    ensures refused { IfErr result (Refuses (first (checks_of (table_view entries.entry.table.now)
        (figure_keys entries.entry.place)))) }
{
    let version = entries.required_integer("version", FIRST_VERSION, LAST_VERSION)?;
    let cell_bytes = entries.integer_or("cell_bytes", 1, MOST_CELL_BYTES, DEFAULT_CELL_BYTES)?;
    let slot_ns = entries.integer_or("slot_ns", 1, MOST_SLOT_NS, DEFAULT_SLOT_NS)?;
    let limit_bytes = entries.integer_or(
        "limit_bytes",
        LEAST_LIMIT_BYTES,
        MOST_LIMIT_BYTES,
        DEFAULT_LIMIT_BYTES,
    )?;
    let workers = entries.integer_or("workers", 1, MOST_WORKERS as u64, DEFAULT_WORKERS)?;
    let (last_port, last_class) = (GREATEST_PORT as u64, GREATEST_CLASS as u64);
    let default_output = entries.integer_or("default_output", 0, last_port, DEFAULT_OUTPUT)?;
    let default_class = entries.integer_or("default_class", 0, last_class, DEFAULT_CLASS)?;
    Ok(Figures {
        version: Version::of(version),
        cell_bytes: cell_bytes as u32,
        slot_ns,
        limit_bytes,
        workers: workers as u16,
        default_output: default_output as u16,
        default_class: default_class as u16,
    })
}
