//! The addresses of a configuration, each of which stands there once.
ghost use Rattle.std.specs.Prelude.{◌≡◌, ◌≢◌, ◌<◌, ◌||◌, ℕ, List, None, IfOk, IfErr, All, map, take, true, codes};
ghost use Rattle.std.specs.List.{AllPairs, list_any};
ghost use Rattle.std.specs.Str.{bytes_eq};
ghost use Rattle.cq_tables.specs.Terms.{view, table_view, Refuses, each, first, address_keys, address_row, and_then, element_check, is_new, mac_in, DuplicateAddress, key_check, required, table_checks, address, address_value, members};

use crate::entries::Entries;
use crate::limits::GREATEST_PORT;
use crate::place::Array;
use crate::refusal::{TableRefusal, Wrong};
use crate::rows::element;
use crate::value::{address, value_at};
use cq_base::NoMemory;
use cq_route::AddressRow;
use std::alloc::Global;
use std::collections::BTreeSet;
use toml::Value;

// Adds the address, and says whether it is new.
fn is_added(known: &mut BTreeSet<[u8; 6]>, mac: [u8; 6]) -> Result<bool, NoMemory>
    ensures new { IfOk result (λ added. added ≡ is_new known.old.keys mac) }
    ensures known { IfOk result (λ _. (q : List ℕ) → list_any (bytes_eq q) known.new.keys
        ≡ (bytes_eq q mac || list_any (bytes_eq q) known.old.keys)) }
{
    Ok(known.insert(mac)?)
}

// The address at the key `mac`, which is none of the known ones. It is known then.
fn new_address(entries: Entries, known: &mut BTreeSet<[u8; 6]>) -> Result<[u8; 6], TableRefusal>
    ensures held { IfOk result (λ _. key_check entries.entry.place (codes "mac")
        (required (and_then address address_value (is_new known.old.keys) DuplicateAddress))
        (table_view entries.entry.table.now) ≡ None) }
    ensures value { IfOk result (λ mac. mac ≡ mac_in (table_view entries.entry.table.now)) }
    ensures fresh { IfOk result (λ mac. is_new known.old.keys mac ≡ true) }
    ensures known { IfOk result (λ mac. (q : List ℕ) → list_any (bytes_eq q) known.new.keys
        ≡ (bytes_eq q mac || list_any (bytes_eq q) known.old.keys)) }
    ensures refused { IfErr result (Refuses (key_check entries.entry.place (codes "mac")
        (required (and_then address address_value (is_new known.old.keys) DuplicateAddress))
        (table_view entries.entry.table.now))) }
{
    let Some(value) = value_at(entries.table, "mac") else {
        return Err(entries.refuse("mac", Wrong::Missing));
    };
    match address(value) {
        Err(wrong) => Err(entries.refuse("mac", wrong)),
        Ok(mac) => {
            if is_added(known, mac)? {
                Ok(mac)
            } else {
                Err(entries.refuse("mac", Wrong::DuplicateAddress))
            }
        }
    }
}

const ADDRESS_KEYS: [&str; 2] = ["mac", "output"];

// The row of an address, which is none of the known ones, among so many ports. It is known then.
#[tactic(auto, unfolding(crate::specs::Check::first))]
fn address_row(
    entries: Entries,
    ports: usize,
    known: &mut BTreeSet<[u8; 6]>,
) -> Result<AddressRow, TableRefusal>
    ensures held { IfOk result (λ _. first (table_checks entries.entry.place
        (address_keys ports known.old.keys entries.entry.place) (table_view entries.entry.table.now)) ≡ None) }
    ensures value { IfOk result (λ row. row ≡ address_row (table_view entries.entry.table.now)) }
    ensures output { IfOk result (λ row. row.output < ports) }
    ensures fresh { IfOk result (λ row. is_new known.old.keys row.mac ≡ true) }
    ensures known { IfOk result (λ row. (q : List ℕ) → list_any (bytes_eq q) known.new.keys
        ≡ (bytes_eq q row.mac || list_any (bytes_eq q) known.old.keys)) }
    ensures refused { IfErr result (Refuses (first (table_checks entries.entry.place
        (address_keys ports known.old.keys entries.entry.place) (table_view entries.entry.table.now)))) }
{
    entries.only(&ADDRESS_KEYS)?;
    let mac = new_address(entries, known)?;
    let output = entries.required_number("output", GREATEST_PORT, ports)?;
    Ok(AddressRow { mac, output })
}

// The row that an element tells.
#[tactic(auto, using(crate::proofs::Checks::element_holds, crate::proofs::Checks::element_refuses))]
fn address_in(
    alloc: Global,
    index: usize,
    value: &Value,
    ports: usize,
    known: &mut BTreeSet<[u8; 6]>,
) -> Result<AddressRow, TableRefusal>
    ensures held { IfOk result (λ _. element_check Array.Addresses (λ _. address_keys ports known.old.keys) index
        (view value.now) ≡ None) }
    ensures value { IfOk result (λ row. row ≡ address_row (members (view value.now))) }
    ensures output { IfOk result (λ row. row.output < ports) }
    ensures fresh { IfOk result (λ row. is_new known.old.keys row.mac ≡ true) }
    ensures known { IfOk result (λ row. (q : List ℕ) → list_any (bytes_eq q) known.new.keys
        ≡ (bytes_eq q row.mac || list_any (bytes_eq q) known.old.keys)) }
    ensures refused { IfErr result (Refuses (element_check Array.Addresses (λ _. address_keys ports known.old.keys)
        index (view value.now))) }
{
    let entries = element(alloc, Array::Addresses, index, value)?;
    address_row(entries, ports, known)
}

/// The addresses that the elements tell, among so many ports. The error is the first check that does not hold, or want
/// of memory.
#[tactic(auto, using(crate::proofs::Walk::walked_none))]
pub fn address_rows(
    alloc: Global,
    values: &[Value],
    ports: usize,
) -> Result<Vec<AddressRow>, TableRefusal>
    ensures held { IfOk result (λ _. first (each (element_check Array.Addresses
        (λ i. address_keys ports (take i (map mac_in (map members (map view values.now)))))) 0 (map view values.now))
        ≡ None) }
    ensures value { IfOk result (λ rows. rows.items ≡ map address_row (map members (map view values.now))) }
    ensures outputs { IfOk result (λ rows. All (λ row. row.output < ports) rows.items) }
    ensures differ { IfOk result (λ rows. AllPairs (λ a b. a.mac ≢ b.mac) rows.items) }
    ensures refused { IfErr result (Refuses
        (first (each (element_check Array.Addresses (λ i. address_keys ports
        (take i (map mac_in (map members (map view values.now)))))) 0 (map view values.now)))) }
{
    let mut known = BTreeSet::new(alloc);
    let mut rows = Vec::new(alloc);
    'addresses: for (index, value) in values.iter().enumerate() {
        let row = address_in(alloc, index, value, ports, &mut known)?;
        rows.push(row).map_err(NoMemory::from)?;
    }
    Ok(rows)
}
