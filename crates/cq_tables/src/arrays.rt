//! The arrays of a configuration, element by element. The error of each is the first check that does not hold, or want
//! of memory.
ghost use Rattle.std.specs.Prelude.{◌≡◌, ◌≤◌, ◌<◌, ◌++◌, ◌∷◌, [], None, IfOk, IfErr, IfSome, OnOk, All, map};
ghost use Rattle.cq_tables.specs.Terms.{level_count, view, Refuses, each, first, class_keys, class_row, element_check, port_keys, port_kind, port_limit, port_row, rule_keys, rule_row, members};

use crate::place::Array;
use crate::refusal::TableRefusal;
use crate::rows::{PortEntry, class_row, element, port_entry, rule_row};
use crate::version::Version;
use cq_base::{ClassRow, Kind, NoMemory};
use cq_route::{PortRow, RuleRow};
use std::alloc::Global;
use toml::Value;

// The class that an element tells, in this version.
#[tactic(auto, using(crate::proofs::Checks::element_holds, crate::proofs::Checks::element_refuses))]
fn class_in(
    alloc: Global,
    index: usize,
    value: &Value,
    version: Version,
) -> Result<ClassRow, TableRefusal>
    ensures held { IfOk result (λ _. element_check Array.Classes (λ _. class_keys version) index (view value.now)
        ≡ None) }
    ensures value { IfOk result (λ row. row ≡ class_row version (members (view value.now))) }
    ensures level { IfOk result (λ row. row.level < level_count) }
    ensures cost { IfOk result (λ row. 1 ≤ row.cost) }
    ensures refused { IfErr result (Refuses (element_check Array.Classes (λ _. class_keys version) index
        (view value.now))) }
{
    let entries = element(alloc, Array::Classes, index, value)?;
    class_row(entries, version)
}

/// The classes that the elements tell, in this version.
pub fn class_rows(
    alloc: Global,
    values: &[Value],
    version: Version,
) -> Result<Vec<ClassRow>, TableRefusal>
    ensures held { IfOk result (λ _. first (each (element_check Array.Classes (λ _. class_keys version)) 0
        (map view values.now)) ≡ None) }
    ensures value { IfOk result (λ rows. rows.items ≡ map (class_row version) (map members (map view values.now))) }
    ensures levels { IfOk result (λ rows. All (λ row. row.level < level_count) rows.items) }
    ensures costs { IfOk result (λ rows. All (λ row. 1 ≤ row.cost) rows.items) }
    ensures refused { IfErr result (Refuses (first (each (element_check Array.Classes (λ _. class_keys version)) 0
        (map view values.now)))) }
{
    let mut rows = Vec::new(alloc);
    'classes: for (index, value) in values.iter().enumerate() {
        let row = class_in(alloc, index, value, version)?;
        rows.push(row).map_err(NoMemory::from)?;
    }
    Ok(rows)
}

// The rule that an element tells.
#[tactic(auto, using(crate::proofs::Checks::element_holds, crate::proofs::Checks::element_refuses))]
fn rule_in(
    alloc: Global,
    index: usize,
    value: &Value,
    ports: usize,
    classes: usize,
) -> Result<RuleRow, TableRefusal>
    ensures held { IfOk result (λ _. element_check Array.Rules (λ _. rule_keys ports classes) index (view value.now)
        ≡ None) }
    ensures value { IfOk result (λ row. row ≡ rule_row (members (view value.now))) }
    ensures input { IfOk result (λ row. IfSome row.input (λ input. input < ports)) }
    ensures class { IfOk result (λ row. row.class < classes) }
    ensures refused { IfErr result (Refuses (element_check Array.Rules (λ _. rule_keys ports classes) index
        (view value.now))) }
{
    let entries = element(alloc, Array::Rules, index, value)?;
    rule_row(entries, ports, classes)
}

/// The rules that the elements tell, among so many ports and classes.
pub fn rule_rows(
    alloc: Global,
    values: &[Value],
    ports: usize,
    classes: usize,
) -> Result<Vec<RuleRow>, TableRefusal>
    ensures held { IfOk result (λ _. first (each (element_check Array.Rules (λ _. rule_keys ports classes)) 0
        (map view values.now)) ≡ None) }
    ensures value { IfOk result (λ rows. rows.items ≡ map rule_row (map members (map view values.now))) }
    ensures inputs { IfOk result (λ rows. All (λ row. IfSome row.input (λ input. input < ports)) rows.items) }
    ensures classes { IfOk result (λ rows. All (λ row. row.class < classes) rows.items) }
    ensures refused { IfErr result (Refuses (first (each (element_check Array.Rules (λ _. rule_keys ports classes)) 0
        (map view values.now)))) }
{
    let mut rows = Vec::new(alloc);
    'rules: for (index, value) in values.iter().enumerate() {
        let row = rule_in(alloc, index, value, ports, classes)?;
        rows.push(row).map_err(NoMemory::from)?;
    }
    Ok(rows)
}

// The port that an element tells.
#[tactic(auto, using(crate::proofs::Checks::element_holds, crate::proofs::Checks::element_refuses))]
fn port_in(alloc: Global, index: usize, value: &Value) -> Result<PortEntry, TableRefusal>
    ensures held { IfOk result (λ _. element_check Array.Ports (λ _. port_keys) index (view value.now) ≡ None) }
    ensures files { IfOk result (λ port. port.files ≡ port_row (members (view value.now))) }
    ensures kind { IfOk result (λ port. port.kind ≡ port_kind (members (view value.now))) }
    ensures limit { IfOk result (λ port. port.limit ≡ port_limit (members (view value.now))) }
    ensures range { IfOk result (λ port. IfSome port.limit (λ n. 1 ≤ n)) }
    ensures refused { IfErr result (Refuses (element_check Array.Ports (λ _. port_keys) index (view value.now))) }
{
    let entries = element(alloc, Array::Ports, index, value)?;
    port_entry(entries)
}

/// The ports that elements tell.
#[derive(Drop)]
pub struct PortEntries {
    /// The files of each port, in order.
    pub files: Vec<PortRow>,
    /// The discipline of each output, in order.
    pub kinds: Vec<Kind>,
    /// The limit of each output in cells, in order. None where it has no limit.
    pub limits: Vec<Option<u64>>,
}

impl PortEntries {
    // No port.
    fn new(alloc: Global) -> Self
        ensures files { result.files.items ≡ [] }
        ensures kinds { result.kinds.items ≡ [] }
        ensures limits { result.limits.items ≡ [] }
    {
        PortEntries {
            files: Vec::new(alloc),
            kinds: Vec::new(alloc),
            limits: Vec::new(alloc),
        }
    }

    // Puts a port behind the others.
    fn push(&mut self, port: PortEntry) -> Result<(), NoMemory>
        ensures files { OnOk result (self.new.files.items ≡ self.old.files.items ++ port.files ∷ []) }
        ensures kinds { OnOk result (self.new.kinds.items ≡ self.old.kinds.items ++ port.kind ∷ []) }
        ensures limits { OnOk result (self.new.limits.items ≡ self.old.limits.items ++ port.limit ∷ []) }
    {
        self.files.push(port.files)?;
        self.kinds.push(port.kind)?;
        Ok(self.limits.push(port.limit)?)
    }
}

/// The ports that the elements tell.
pub fn port_rows(alloc: Global, values: &[Value]) -> Result<PortEntries, TableRefusal>
    ensures held { IfOk result (λ _. first (each (element_check Array.Ports (λ _. port_keys)) 0 (map view values.now))
        ≡ None) }
    ensures files { IfOk result (λ ports. ports.files.items ≡ map port_row (map members (map view values.now))) }
    ensures kinds { IfOk result (λ ports. ports.kinds.items ≡ map port_kind (map members (map view values.now))) }
    ensures limits { IfOk result (λ ports. ports.limits.items ≡ map port_limit (map members (map view values.now))) }
    ensures range { IfOk result (λ ports. All (λ limit. IfSome limit (λ n. 1 ≤ n)) ports.limits.items) }
    ensures refused { IfErr result (Refuses (first (each (element_check Array.Ports (λ _. port_keys)) 0
        (map view values.now)))) }
{
    let mut ports = PortEntries::new(alloc);
    'elements: for (index, value) in values.iter().enumerate() {
        let port = port_in(alloc, index, value)?;
        ports.push(port)?;
    }
    Ok(ports)
}
