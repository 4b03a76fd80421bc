//! That no file of a configuration is named twice, but to be read.
ghost use Rattle.std.specs.Prelude.{◌≡◌, ◌||◌, false, option_map, unwrap_or, ◌≤◌, None, IfOk, IfErr, length, take};
ghost use Rattle.std.specs.List.{list_any};
ghost use Rattle.std.specs.Str.{bytes_eq};
ghost use Rattle.cq_tables.specs.Terms.{Refuses, first, apart_from, file_check, names_of, files_before, is_named, read_clashes, write_clashes};

use crate::place::{Array, Place};
use crate::refusal::{TableRefusal, Wrong, refusal};
use cq_base::Name;
use cq_route::{PortRow, Tables};
use std::alloc::Global;

// Whether the two names are the same.
fn is_same(a: &Name, b: &Name) -> bool
    ensures { result ≡ bytes_eq a.now b.now }
{
    a.text() == b.text()
}

// Whether a port names the file, where that clashes: two ports may read one file.
fn is_named(file: &Name, is_read: bool, row: &PortRow) -> bool
    ensures { result ≡ is_named file.now is_read row.now }
{
    let read = match &row.read {
        Some(read) => !is_read && is_same(file, read),
        None => false,
    };
    read || is_same(file, &row.write)
}

// Whether one of the ports does.
fn is_named_among(file: &Name, is_read: bool, rows: &[PortRow]) -> bool
    ensures { result ≡ list_any (is_named file.now is_read) rows.now }
{
    rows.iter().any(|row| is_named(file, is_read, row))
}

// Whether the whole run names the file, or one of its first ports does.
fn is_taken(tables: &Tables, count: usize, file: &Name, is_read: bool) -> bool
    requires { count ≤ length tables.now.ports }
    ensures { result ≡ (bytes_eq file.now tables.now.trace ||
        (bytes_eq file.now tables.now.log || list_any (is_named file.now is_read) (take count tables.now.ports))) }
{
    if is_same(file, &tables.trace) || is_same(file, &tables.log) {
        return true;
    }
    is_named_among(file, is_read, &tables.ports.as_slice()[..count])
}

// Whether the file that the port reads is named before it, so that they clash.
fn read_is_taken(tables: &Tables, index: usize, row: &PortRow) -> bool
    requires { index ≤ length tables.now.ports }
    ensures { result ≡ read_clashes tables.now index row.now }
{
    match &row.read {
        Some(read) => is_taken(tables, index, read, true),
        None => false,
    }
}

// Whether the port reads the file that it writes.
fn reads_its_output(row: &PortRow) -> bool
    ensures { result ≡ unwrap_or (option_map (λ read. bytes_eq row.now.write read) row.now.read) false }
{
    match &row.read {
        Some(read) => is_same(&row.write, read),
        None => false,
    }
}

// Whether the file that the port writes is named before that.
fn write_is_taken(tables: &Tables, index: usize, row: &PortRow) -> bool
    requires { index ≤ length tables.now.ports }
    ensures { result ≡ write_clashes tables.now index row.now }
{
    if is_taken(tables, index, &row.write, false) {
        return true;
    }
    reads_its_output(row)
}

// Refuses a port's name of a file that stands before it.
#[tactic(auto, using(crate::proofs::Walk::differ_steps))]
fn port_files(
    alloc: Global,
    tables: &Tables,
    index: usize,
    row: &PortRow,
) -> Result<(), TableRefusal>
    requires { index ≤ length tables.now.ports }
    ensures held { IfOk result (λ _. first (apart_from (files_before tables.now index) (names_of index row.now))
        ≡ None) }
    ensures refused { IfErr result (Refuses (first (apart_from (files_before tables.now index)
        (names_of index row.now)))) }
{
    let place = Place::Element(Array::Ports, index);
    if read_is_taken(tables, index, row) {
        return Err(refusal(alloc, Wrong::DuplicateFile, place, "read"));
    }
    if write_is_taken(tables, index, row) {
        return Err(refusal(alloc, Wrong::DuplicateFile, place, "write"));
    }
    Ok(())
}

/// Refuses the first name of a file that stands before it, where not both are to be read.
#[tactic(auto, using(crate::proofs::Walk::differ_steps), unfolding(crate::specs::Check::first))]
pub fn files_differ(alloc: Global, tables: &Tables) -> Result<(), TableRefusal>
    ensures held { IfOk result (λ _. file_check tables.now ≡ None) }
    ensures refused { IfErr result (Refuses (file_check tables.now)) }
{
    if is_same(&tables.log, &tables.trace) {
        return Err(refusal(alloc, Wrong::DuplicateFile, Place::Top, "log"));
    }
    'ports: for (index, row) in tables.ports.as_slice().iter().enumerate() {
        port_files(alloc, tables, index, row)?;
    }
    Ok(())
}
