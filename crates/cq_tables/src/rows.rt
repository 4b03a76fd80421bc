//! The rows of the arrays, each read from one element. The error of each is the first check that does not hold, or want
//! of memory.
ghost use Rattle.std.specs.Prelude.{◌≡◌, ◌≤◌, ◌<◌, None, IfOk, IfErr, IfSome, map};
ghost use Rattle.cq_tables.specs.Terms.{level_count, view, table_view, Refuses, at, first, class_keys, class_row, level_in, level_keys, port_keys, port_kind, port_limit, port_row, rule_keys, rule_row, checks_of, no_other, table_checks, element_path, members, table_type};

use crate::entries::Entries;
use crate::limits::{
    DEFAULT_COST, DEFAULT_LEVEL, DEFAULT_PRIORITY, GREATEST_CLASS, GREATEST_DSCP,
    GREATEST_ETHER_TYPE, GREATEST_LEVEL, GREATEST_LIMIT, GREATEST_PCP, GREATEST_PORT, LEAST_COST,
};
use crate::place::{Array, Place};
use crate::refusal::{TableRefusal, Wrong, element_refusal};
use crate::version::Version;
use cq_base::{ClassRow, Kind};
use cq_route::{PortRow, RuleRow};
use std::alloc::Global;
use toml::Value;

/// The table that an element of an array is.
pub fn element<'a>(
    alloc: Global,
    array: Array,
    index: usize,
    value: &'a Value,
) -> Result<Entries<'a>, TableRefusal>
    ensures held { IfOk result (λ _. table_type (view value.now) ≡ None) }
    ensures place { IfOk result (λ entries. entries.place ≡ Place.Element array index) }
    ensures table { IfOk result (λ entries. table_view entries.table.now ≡ members (view value.now)) }
    ensures refused { IfErr result (Refuses (at (element_path array index) (table_type (view value.now)))) }
{
    match value.as_table() {
        None => Err(element_refusal(alloc, Wrong::WrongType, array, index)),
        Some(table) => Ok(Entries {
            alloc,
            place: Place::Element(array, index),
            table,
        }),
    }
}

const CLASS_KEYS: [&str; 2] = ["priority", "cost"];

const LEVELLED_CLASS_KEYS: [&str; 3] = ["priority", "cost", "level"];

// Refuses a key that no class has in this version.
fn only_class_keys(entries: Entries, version: Version) -> Result<(), TableRefusal>
    ensures held { IfOk result (λ _. no_other entries.entry.place
        (map (λ k. k.name) (class_keys version entries.entry.place)) (table_view entries.entry.table.now) ≡ None) }
    ensures refused { IfErr result (Refuses (no_other entries.entry.place
        (map (λ k. k.name) (class_keys version entries.entry.place)) (table_view entries.entry.table.now))) }
{
    match version {
        Version::One => entries.only(&CLASS_KEYS),
        Version::Two => entries.only(&LEVELLED_CLASS_KEYS),
    }
}

// The level that a class states.
#[tactic(auto, unfolding(crate::specs::Check::first))]
fn stated_level(entries: Entries) -> Result<u8, TableRefusal>
    ensures held { IfOk result (λ _. first (checks_of (table_view entries.entry.table.now)
        (level_keys Version.Two entries.entry.place)) ≡ None) }
    ensures value { IfOk result (λ level. level ≡ level_in Version.Two (table_view entries.entry.table.now)) }
    ensures few { IfOk result (λ level. level < level_count) }
    ensures refused { IfErr result (Refuses (first (checks_of (table_view entries.entry.table.now)
        (level_keys Version.Two entries.entry.place)))) }
{
    let level = entries.integer_or("level", 0, GREATEST_LEVEL, DEFAULT_LEVEL)?;
    Ok(level as u8)
}

// The level of a class, which is stated in version 2 alone.
#[tactic(auto, unfolding(crate::specs::Check::first))]
fn level_in(entries: Entries, version: Version) -> Result<u8, TableRefusal>
    ensures held { IfOk result (λ _. first (checks_of (table_view entries.entry.table.now)
        (level_keys version entries.entry.place)) ≡ None) }
    ensures value { IfOk result (λ level. level ≡ level_in version (table_view entries.entry.table.now)) }
    ensures few { IfOk result (λ level. level < level_count) }
    ensures refused { IfErr result (Refuses (first (checks_of (table_view entries.entry.table.now)
        (level_keys version entries.entry.place)))) }
{
    match version {
        Version::One => Ok(DEFAULT_LEVEL as u8),
        Version::Two => stated_level(entries),
    }
}

/// The row of a class.
#[tactic(auto, unfolding(crate::specs::Check::first))]
pub fn class_row(entries: Entries, version: Version) -> Result<ClassRow, TableRefusal>
    ensures held { IfOk result (λ _. first (table_checks entries.entry.place (class_keys version entries.entry.place)
        (table_view entries.entry.table.now)) ≡ None) }
    ensures value { IfOk result (λ row. row ≡ class_row version (table_view entries.entry.table.now)) }
    ensures level { IfOk result (λ row. row.level < level_count) }
    ensures cost { IfOk result (λ row. 1 ≤ row.cost) }
    ensures refused { IfErr result (Refuses (first (table_checks entries.entry.place
        (class_keys version entries.entry.place) (table_view entries.entry.table.now)))) }
{
    only_class_keys(entries, version)?;
    let priority = entries.wide_or("priority", 0, DEFAULT_PRIORITY)?;
    let cost = entries.wide_or("cost", LEAST_COST, DEFAULT_COST)?;
    let level = level_in(entries, version)?;
    Ok(ClassRow {
        level,
        priority,
        cost,
    })
}

const PORT_KEYS: [&str; 4] = ["read", "write", "discipline", "limit"];

/// A port, as its table tells it.
#[derive(Drop)]
pub struct PortEntry {
    /// Its files.
    pub files: PortRow,
    /// The discipline of its output.
    pub kind: Kind,
    /// The limit of its output in cells. None where it has no limit.
    pub limit: Option<u64>,
}

/// The files, the discipline and the limit of a port.
#[tactic(auto, using(crate::proofs::Values::least_of), unfolding(crate::specs::Check::first, crate::specs::Document::port_keys, crate::specs::Key::least_unknown))]
pub fn port_entry(entries: Entries) -> Result<PortEntry, TableRefusal>
    ensures held { IfOk result (λ _. first (table_checks entries.entry.place (port_keys entries.entry.place)
        (table_view entries.entry.table.now)) ≡ None) }
    ensures files { IfOk result (λ port. port.files ≡ port_row (table_view entries.entry.table.now)) }
    ensures kind { IfOk result (λ port. port.kind ≡ port_kind (table_view entries.entry.table.now)) }
    ensures limit { IfOk result (λ port. port.limit ≡ port_limit (table_view entries.entry.table.now)) }
    ensures range { IfOk result (λ port. IfSome port.limit (λ n. 1 ≤ n)) }
    ensures refused { IfErr result (Refuses (first (table_checks entries.entry.place (port_keys entries.entry.place)
        (table_view entries.entry.table.now)))) }
{
    entries.only(&PORT_KEYS)?;
    let read = entries.file("read")?;
    let write = entries.required_file("write")?;
    let kind = entries.discipline("discipline")?;
    let limit = entries.integer("limit", 1, GREATEST_LIMIT)?;
    Ok(PortEntry {
        files: PortRow { read, write },
        kind,
        limit,
    })
}

const RULE_KEYS: [&str; 5] = ["input", "pcp", "ether_type", "dscp", "class"];

/// The row of a rule, among so many ports and classes.
#[tactic(auto, unfolding(crate::specs::Check::first, crate::specs::Document::rule_keys, crate::specs::Key::least_unknown))]
pub fn rule_row(entries: Entries, ports: usize, classes: usize) -> Result<RuleRow, TableRefusal>
    ensures held { IfOk result (λ _. first (table_checks entries.entry.place
        (rule_keys ports classes entries.entry.place) (table_view entries.entry.table.now)) ≡ None) }
    ensures value { IfOk result (λ row. row ≡ rule_row (table_view entries.entry.table.now)) }
    ensures input { IfOk result (λ row. IfSome row.input (λ input. input < ports)) }
    ensures class { IfOk result (λ row. row.class < classes) }
    ensures refused { IfErr result (Refuses (first (table_checks entries.entry.place
        (rule_keys ports classes entries.entry.place) (table_view entries.entry.table.now)))) }
{
    entries.only(&RULE_KEYS)?;
    let input = entries.number("input", GREATEST_PORT, ports)?;
    let pcp = entries.integer("pcp", 0, GREATEST_PCP)?;
    let ether_type = entries.integer("ether_type", 0, GREATEST_ETHER_TYPE)?;
    let dscp = entries.integer("dscp", 0, GREATEST_DSCP)?;
    let class = entries.required_number("class", GREATEST_CLASS, classes)?;
    Ok(RuleRow {
        input,
        pcp: pcp.map(|n| n as u8),
        ether_type: ether_type.map(|n| n as u16),
        dscp: dscp.map(|n| n as u8),
        class,
    })
}
