//! The tables of the switch.
ghost use Rattle.std.specs.Prelude.{◌≡◌, ◌<◌, ◌≤◌, None, map, replicate, IfOk};
ghost use Rattle.std.specs.List.{range_with_len};
ghost use Rattle.cq_base.specs.Limits.{most_ports};
ghost use Rattle.cq_gen.specs.Tables.{soak_address, soak_class, soak_kind, soak_port, soak_rule, soak_setup, soak_tables};

use crate::packets::output_address;
use cq_base::{ClassRow, Kind, Name, NoMemory, Port, Sequence, Setup};
use cq_route::{
    AddressRow, DEFAULT_CELL_BYTES, DEFAULT_CLASS, DEFAULT_LEVEL, DEFAULT_LIMIT_BYTES,
    DEFAULT_OUTPUT, DEFAULT_SLOT_NS, PortRow, RuleRow, Tables,
};
use std::alloc::{AllocError, Global};

// As many classes as a tag has priorities.
const CLASSES: u8 = 8;

/// The tables of a switch with so many ports. The error is want of memory.
#[tactic(auto, unfolding(crate::specs::Tables::soak_tables, cq_route::specs::Plain::plain_tables))]
pub fn soak_tables(alloc: Global, ports: Port) -> Result<Tables, NoMemory>
    requires { ports ≤ most_ports }
    ensures { IfOk result (λ tables. tables ≡ soak_tables ports) }
{
    Ok(Tables {
        cell_bytes: DEFAULT_CELL_BYTES as u32,
        slot_ns: DEFAULT_SLOT_NS,
        limit_bytes: DEFAULT_LIMIT_BYTES,
        workers: 2,
        default_output: DEFAULT_OUTPUT as u16,
        default_class: DEFAULT_CLASS as u16,
        trace: Name::of(alloc, "")?,
        log: Name::of(alloc, "")?,
        setup: soak_setup(alloc, ports)?,
        ports: Sequence::of(port_rows(alloc, ports)?),
        limits: Sequence::of(no_limits(alloc, ports)?),
        addresses: Sequence::of(addresses(alloc, ports)?),
        rules: Sequence::of(rules(alloc)?),
    })
}

fn soak_setup(alloc: Global, ports: Port) -> Result<Setup, NoMemory>
    ensures { IfOk result (λ setup. setup ≡ soak_setup ports) }
{
    Ok(Setup {
        classes: Sequence::of(classes(alloc)?),
        kinds: Sequence::of(kinds(alloc, ports)?),
    })
}

fn class_of(class: u8) -> ClassRow
    requires { class < 8 }
    ensures { result ≡ soak_class class }
{
    ClassRow {
        level: DEFAULT_LEVEL as u8,
        priority: u128::from(CLASSES - 1 - class),
        cost: u128::from(1 + class),
    }
}

// The classes, the least urgent first.
#[tactic(auto, using(std::proofs::lemmas::Iterator::items_from_collect))]
fn classes(alloc: Global) -> Result<Vec<ClassRow>, AllocError>
    ensures { IfOk result (λ rows. rows.items ≡ map soak_class (range_with_len 0 8)) }
{
    (0..CLASSES).map(class_of).collect(alloc)
}

fn kind_of(output: Port) -> Kind
    ensures { result ≡ soak_kind output }
{
    match output % 3 {
        0 => Kind::FirstCome,
        1 => Kind::Priority,
        _ => Kind::Fair,
    }
}

// The disciplines of the outputs, in order.
#[tactic(auto, using(std::proofs::lemmas::Iterator::items_from_collect))]
fn kinds(alloc: Global, ports: Port) -> Result<Vec<Kind>, AllocError>
    ensures { IfOk result (λ kinds. kinds.items ≡ map soak_kind (range_with_len 0 ports)) }
{
    (0..ports).map(kind_of).collect(alloc)
}

// The ports, none of which has a file.
#[tactic(auto, using(std::proofs::lemmas::List::replicate_more))]
fn port_rows(alloc: Global, ports: Port) -> Result<Vec<PortRow>, NoMemory>
    ensures { IfOk result (λ rows. rows.items ≡ replicate ports soak_port) }
{
    let mut rows = Vec::with_capacity(alloc, ports as usize)?;
    'ports: for _ in 0..ports {
        let row = PortRow {
            read: None,
            write: Name::of(alloc, "")?,
        };
        rows.push(row)?;
    }
    Ok(rows)
}

// No output has a limit.
fn no_limits(alloc: Global, ports: Port) -> Result<Vec<Option<u64>>, NoMemory>
    ensures { IfOk result (λ limits. limits.items ≡ replicate ports None) }
{
    Ok(vec![in alloc; None; ports as usize]?)
}

fn address_of(output: Port) -> AddressRow
    requires { output < most_ports }
    ensures { result ≡ soak_address output }
{
    AddressRow {
        mac: output_address(output as u8),
        output,
    }
}

// The address of each output.
#[tactic(auto, using(std::proofs::lemmas::Iterator::items_from_collect))]
fn addresses(alloc: Global, ports: Port) -> Result<Vec<AddressRow>, AllocError>
    requires { ports ≤ most_ports }
    ensures { IfOk result (λ rows. rows.items ≡ map soak_address (range_with_len 0 ports)) }
{
    (0..ports).map(address_of).collect(alloc)
}

// A rule for each priority.
#[tactic(auto, using(std::proofs::lemmas::Iterator::items_from_collect))]
fn rules(alloc: Global) -> Result<Vec<RuleRow>, AllocError>
    ensures { IfOk result (λ rules. rules.items ≡ map soak_rule (range_with_len 0 8)) }
{
    let rule = |class: u8| RuleRow {
        input: None,
        pcp: Some(class),
        ether_type: None,
        dscp: None,
        class: u16::from(class),
    };
    (0..CLASSES).map(rule).collect(alloc)
}
