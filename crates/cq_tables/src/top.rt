//! The arrays of the top table. The error of each is the first check that does not hold, or want of memory.
ghost use Rattle.std.specs.Prelude.{◌≡◌, ◌≢◌, ◌≤◌, ◌<◌, None, IfOk, IfErr, IfSome, All, length, map};
ghost use Rattle.std.specs.Int.{IsInRange};
ghost use Rattle.std.specs.List.{AllPairs};
ghost use Rattle.cq_tables.specs.Terms.{level_count, most_classes, most_ports, get_member, table_view, view, Refuses, ArePortsOf, address_array, address_row, class_array, class_rows, classes_in, elements_at, port_array, ports_in, rows_in, rule_array, rule_row, version_in, check_of, key_check, optional, array_key, array_of};

use crate::addresses::address_rows;
use crate::arrays::{PortEntries, class_rows, port_rows, rule_rows};
use crate::entries::Entries;
use crate::limits::{
    DEFAULT_COST, DEFAULT_LEVEL, DEFAULT_PRIORITY, MOST_ADDRESSES, MOST_CLASSES, MOST_PORTS,
    MOST_RULES,
};
use crate::place::{Array, Place};
use crate::refusal::TableRefusal;
use crate::version::Version;
use cq_base::{ClassRow, NoMemory};
use cq_route::{AddressRow, RuleRow};
use std::alloc::Global;
use toml::{Table, Value};

// The elements of an array that may be left out: none where it is.
fn elements_of<'a>(
    alloc: Global,
    top: &'a Table,
    array: Array,
    least: usize,
    most: usize,
) -> Result<&'a [Value], TableRefusal>
    ensures held { IfOk result (λ _. key_check Place.Top (array_key array) (optional (array_of least most))
        (table_view top.now) ≡ None) }
    ensures value { IfOk result (λ items. map view items.now
        ≡ elements_at (get_member (array_key array) (table_view top.now))) }
    ensures range { IfOk result (λ items. length items.now ≤ most) }
    ensures refused { IfErr result (Refuses (key_check Place.Top (array_key array) (optional (array_of least most))
        (table_view top.now))) }
{
    let place = Place::Top;
    let entries = Entries {
        alloc,
        place,
        table: top,
    };
    entries.elements(array.key(), least, most)
}

/// The classes, in the version of the table: one with the defaults where none is stated.
pub fn classes(alloc: Global, top: &Table, version: Version) -> Result<Vec<ClassRow>, TableRefusal>
    requires { version ≡ version_in (table_view top.now) }
    ensures held { IfOk result (λ _. check_of (table_view top.now) (class_array (version_in (table_view top.now)))
        ≡ None) }
    ensures value { IfOk result (λ rows. rows.items ≡ class_rows (version_in (table_view top.now))
        (table_view top.now)) }
    ensures levels { IfOk result (λ rows. All (λ row. row.level < level_count) rows.items) }
    ensures costs { IfOk result (λ rows. All (λ row. 1 ≤ row.cost) rows.items) }
    ensures range { IfOk result (λ rows. IsInRange 1 most_classes (length rows.items)) }
    ensures refused { IfErr result (Refuses (check_of (table_view top.now)
        (class_array (version_in (table_view top.now))))) }
{
    let values = elements_of(alloc, top, Array::Classes, 1, MOST_CLASSES)?;
    let mut rows = class_rows(alloc, values, version)?;
    if rows.is_empty() {
        let default = ClassRow {
            level: DEFAULT_LEVEL as u8,
            priority: DEFAULT_PRIORITY,
            cost: DEFAULT_COST,
        };
        rows.push(default).map_err(NoMemory::from)?;
    }
    Ok(rows)
}

/// The ports.
pub fn ports(alloc: Global, top: &Table) -> Result<PortEntries, TableRefusal>
    ensures held { IfOk result (λ _. check_of (table_view top.now) port_array ≡ None) }
    ensures value { IfOk result (ArePortsOf (table_view top.now)) }
    ensures limit_range { IfOk result (λ ports. All (λ limit. IfSome limit (λ n. 1 ≤ n)) ports.limits.items) }
    ensures range { IfOk result (λ _. IsInRange 1 most_ports (ports_in (table_view top.now))) }
    ensures refused { IfErr result (Refuses (check_of (table_view top.now) port_array)) }
{
    let place = Place::Top;
    let entries = Entries {
        alloc,
        place,
        table: top,
    };
    let values = entries.required_elements(Array::Ports.key(), 1, MOST_PORTS)?;
    port_rows(alloc, values)
}

/// The addresses, among so many ports.
pub fn addresses(alloc: Global, top: &Table, ports: usize) -> Result<Vec<AddressRow>, TableRefusal>
    requires { ports ≡ ports_in (table_view top.now) }
    ensures held { IfOk result (λ _. check_of (table_view top.now) (address_array (table_view top.now)) ≡ None) }
    ensures value { IfOk result (λ rows. rows.items ≡ map address_row (rows_in Array.Addresses (table_view top.now))) }
    ensures outputs { IfOk result (λ rows. All (λ row. row.output < ports) rows.items) }
    ensures differ { IfOk result (λ rows. AllPairs (λ a b. a.mac ≢ b.mac) rows.items) }
    ensures refused { IfErr result (Refuses (check_of (table_view top.now) (address_array (table_view top.now)))) }
{
    let values = elements_of(alloc, top, Array::Addresses, 0, MOST_ADDRESSES)?;
    address_rows(alloc, values, ports)
}

/// The rules, among so many ports and classes.
#[tactic(auto, using(crate::proofs::Checks::otherwise_holds))]
pub fn rules(
    alloc: Global,
    top: &Table,
    ports: usize,
    classes: usize,
) -> Result<Vec<RuleRow>, TableRefusal>
    requires ports { ports ≡ ports_in (table_view top.now) }
    requires classes { classes ≡ classes_in (table_view top.now) }
    ensures held { IfOk result (λ _. check_of (table_view top.now) (rule_array (table_view top.now)) ≡ None) }
    ensures value { IfOk result (λ rows. rows.items ≡ map rule_row (rows_in Array.Rules (table_view top.now))) }
    ensures inputs { IfOk result (λ rows. All (λ row. IfSome row.input (λ input. input < ports)) rows.items) }
    ensures classes { IfOk result (λ rows. All (λ row. row.class < classes) rows.items) }
    ensures refused { IfErr result (Refuses (check_of (table_view top.now) (rule_array (table_view top.now)))) }
{
    let values = elements_of(alloc, top, Array::Rules, 0, MOST_RULES)?;
    rule_rows(alloc, values, ports, classes)
}
