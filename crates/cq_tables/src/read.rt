//! The tables that a configuration gives.
ghost use Rattle.std.specs.Prelude.{◌≡◌, ◌<◌, ◌++◌, None, Some, Ok, IfOk, IfErr, is_some};
ghost use Rattle.cq_tables.specs.Terms.{AreTables, table_view, Refuses, at, first, unless, IsRefusedFor, default_checks, default_checks_of, document, is_there, read_or_refused, tables_of, top_keys, whole, table_checks};

use crate::entries::Entries;
use crate::figures::{Figures, figures_in};
use crate::files::files_differ;
use crate::limits::LONGEST_CONFIGURATION;
use crate::place::Place;
use crate::refusal::{TableRefusal, Wrong, refusal};
use crate::top::{addresses, classes, ports, rules};
use cq_base::{Sequence, Setup};
use cq_route::Tables;
use std::alloc::Global;
use toml::Table;

const TOP_KEYS: [&str; 13] = [
    "version",
    "cell_bytes",
    "slot_ns",
    "limit_bytes",
    "workers",
    "default_output",
    "default_class",
    "trace",
    "log",
    "class",
    "port",
    "address",
    "rule",
];

// Refuses a key of the top table whose number is not below the count of what it names.
fn is_there(alloc: Global, key: &str, number: u16, count: usize) -> Result<(), TableRefusal>
    ensures held { IfOk result (λ _. is_there key.now number count ≡ None) }
    ensures below { IfOk result (λ _. number < count) }
    ensures refused { IfErr result (Refuses (is_there key.now number count)) }
{
    if usize::from(number) < count {
        Ok(())
    } else {
        Err(refusal(alloc, Wrong::NoSuchPortOrClass, Place::Top, key))
    }
}

// Refuses a default whose port or class is not there.
#[tactic(auto, unfolding(crate::specs::Check::first))]
fn defaults_are_there(
    alloc: Global,
    figures: Figures,
    ports: usize,
    classes: usize,
) -> Result<(), TableRefusal>
    ensures held { IfOk result (λ _. first (default_checks_of figures ports classes) ≡ None) }
    ensures output { IfOk result (λ _. figures.default_output < ports) }
    ensures class { IfOk result (λ _. figures.default_class < classes) }
    ensures refused { IfErr result (Refuses (first (default_checks_of figures ports classes))) }
{
    is_there(alloc, "default_output", figures.default_output, ports)?;
    is_there(alloc, "default_class", figures.default_class, classes)
}

// The tables of a document, by all checks but that on its files.
#[tactic(auto, unfolding(crate::specs::Document::tables_of))]
fn tables_in(alloc: Global, top: &Table) -> Result<Tables, TableRefusal>
    ensures held { IfOk result (λ _. first (table_checks Place.Top (top_keys (table_view top.now)) (table_view top.now)
        ++ default_checks (table_view top.now)) ≡ None) }
    ensures value { IfOk result (λ tables. tables ≡ tables_of (table_view top.now)) }
    ensures in_range { IfOk result AreTables }
    ensures refused { IfErr result (Refuses (first (table_checks Place.Top (top_keys (table_view top.now))
        (table_view top.now) ++ default_checks (table_view top.now)))) }
{
    let place = Place::Top;
    let entries = Entries {
        alloc,
        place,
        table: top,
    };
    entries.only(&TOP_KEYS)?;
    let figures = figures_in(entries)?;
    let trace = entries.required_file("trace")?;
    let log = entries.required_file("log")?;
    let class_rows = classes(alloc, top, figures.version)?;
    let port_rows = ports(alloc, top)?;
    let port_count = port_rows.files.len();
    let address_rows = addresses(alloc, top, port_count)?;
    let rule_rows = rules(alloc, top, port_count, class_rows.len())?;
    defaults_are_there(alloc, figures, port_count, class_rows.len())?;
    Ok(Tables {
        cell_bytes: figures.cell_bytes,
        slot_ns: figures.slot_ns,
        limit_bytes: figures.limit_bytes,
        workers: figures.workers,
        default_output: figures.default_output,
        default_class: figures.default_class,
        trace,
        log,
        setup: Setup {
            classes: Sequence::of(class_rows),
            kinds: Sequence::of(port_rows.kinds),
        },
        ports: Sequence::of(port_rows.files),
        limits: Sequence::of(port_rows.limits),
        addresses: Sequence::of(address_rows),
        rules: Sequence::of(rule_rows),
    })
}

// The document that the bytes are.
#[tactic(auto, unfolding(crate::specs::Document::document))]
fn document(alloc: Global, bytes: &[u8]) -> Result<Table, TableRefusal>
    ensures held { IfOk result (λ top. document bytes.now ≡ Some (table_view top)) }
    ensures refused { IfErr result (Refuses (at whole (unless (is_some (document bytes.now)) Wrong.NotToml))) }
{
    match toml::table_from_slice(alloc, bytes) {
        Ok(top) => Ok(top),
        Err(error) if error.is_memory() => Err(TableRefusal::NoMemory),
        Err(_) => Err(refusal(alloc, Wrong::NotToml, Place::Top, "-")),
    }
}

/// Reads a configuration: the tables that its document gives where each of its checks holds, or the
/// first check that does not hold, with its number from 1 to 10 and the path of its key.
///
/// A text of more than 1,048,576 bytes is refused before it is read. The tables are in range. The other
/// error is want of memory.
#[tactic(auto, using(crate::proofs::Text::table_fault, crate::proofs::Text::read_all))]
pub fn read_tables(alloc: Global, bytes: &[u8]) -> Result<Tables, TableRefusal>
    ensures tables { IfOk result (λ tables. read_or_refused bytes.now ≡ Ok tables) }
    ensures in_range { IfOk result (λ tables. AreTables tables) }
    ensures refused { IfErr result (IsRefusedFor (read_or_refused bytes.now)) }
{
    if bytes.len() > LONGEST_CONFIGURATION {
        return Err(refusal(alloc, Wrong::TooLong, Place::Top, "-"));
    }
    let top = document(alloc, bytes)?;
    let tables = tables_in(alloc, &top)?;
    files_differ(alloc, &tables)?;
    Ok(tables)
}
