//! Reading what a command names. Nothing is written here. The error of each call is why the run halts: what was read is
//! refused, a name was unread, or memory ran out.
ghost use Rattle.std.specs.Prelude.{◌≡◌, ◌≤◌, ◌∷◌, ◌++◌, [], IfOk, IsTrue, OnOk, length};
ghost use Rattle.cq_run.specs.Terms.{AreTables, ports_of, Fails, Reads, fault_of, Closed, Judges, InTurn, Reader, is_no, meaning_of, halt_for, capture_in, captures_in, file_in, packets_at, short_in, state_in, tables_in, text_in, longest_file};

use crate::{CaptureFault, Denial, Halt, Refusal, StateFault};
use cq_base::{Name, NoMemory, Sequence};
use cq_pcap::{Capture, PcapRefusal, read_capture};
use cq_route::{PortRow, Tables};
use cq_space::{Files, ReadRefusal, read_whole};
use cq_tables::{TOO_LONG, TableRefusal, read_tables};
use std::alloc::Global;

// The greatest length of a configuration, in bytes.
const LONGEST_CONFIGURATION: u64 = cq_base::LONGEST_CONFIGURATION as u64;

// The greatest length of a trace and of a log that are audited, and of the text of a state, in bytes.
const LONGEST_TEXT: u64 = cq_state::LONGEST_TEXT as u64;

/// The tables of the configuration of this name.
#[tactic(auto, using(crate::proofs::Chain::configuration_long))]
pub fn read_configuration<F: Files>(
    alloc: Global,
    files: &mut F,
    name: Name,
) -> Result<Tables, Halt>
    requires { (F.space files.old).mode ≡ Closed }
    ensures judges { Judges InTurn (tables_in name)
        (λ asked. (asked ≡ name) × Fails F.space F.may_fail F.unbegun (Reads asked) files.old files.new)
        (F.space files.old) (F.space files.new) result }
    ensures kept { F.unbegun files.old files.new }
    ensures in_range { IfOk result (λ tables. AreTables tables) }
{
    match read_whole(alloc, files, name.text(), LONGEST_CONFIGURATION) {
        Ok(bytes) => match read_tables(alloc, &bytes) {
            Ok(tables) => Ok(tables),
            Err(TableRefusal::At { code, path }) => Err(Halt::Refused {
                refusal: Refusal::Configuration { code, path },
            }),
            Err(TableRefusal::NoMemory) => Err(Halt::NoMemory),
        },
        Err(ReadRefusal::Missing) => Err(Halt::Refused {
            refusal: Refusal::Missing { name },
        }),
        Err(ReadRefusal::Fault) => Err(Halt::Unread { name }),
        Err(ReadRefusal::Long { .. }) => Err(Halt::Refused {
            refusal: Refusal::Configuration {
                code: TOO_LONG,
                path: Name::of(alloc, "-")?,
            },
        }),
        Err(ReadRefusal::NoMemory) => Err(Halt::NoMemory),
    }
}

/// The bytes of the file of this name, a trace or a log, if it has at most 268,435,456 of them. Where it has more, the
/// audit says no by `long`. They are not looked at.
pub fn read_text<F: Files>(
    alloc: Global,
    files: &mut F,
    name: &Name,
    long: Denial,
) -> Result<Sequence<u8>, Halt>
    requires closed { (F.space files.old).mode ≡ Closed }
    requires untold { IsTrue (is_no long) }
    ensures judges { Judges InTurn (text_in long name.now)
        (λ asked. (asked ≡ name.now) × Fails F.space F.may_fail F.unbegun (Reads asked) files.old files.new)
        (F.space files.old) (F.space files.new) result }
    ensures kept { F.unbegun files.old files.new }
{
    let asked = Name::of(alloc, name.text())?;
    let refusal = Refusal::Audit { denial: long };
    read_short(alloc, files, asked, LONGEST_TEXT, refusal)
}

/// The text of the state of a stopped run, from the file of this name, if that has at most 268,435,456 bytes. It is not
/// looked at.
pub fn read_stopped<F: Files>(
    alloc: Global,
    files: &mut F,
    name: Name,
) -> Result<Sequence<u8>, Halt>
    requires { (F.space files.old).mode ≡ Closed }
    ensures judges { Judges InTurn (state_in name)
        (λ asked. (asked ≡ name) × Fails F.space F.may_fail F.unbegun (Reads asked) files.old files.new)
        (F.space files.old) (F.space files.new) result }
    ensures kept { F.unbegun files.old files.new }
{
    let long = Refusal::State {
        fault: StateFault::Long,
    };
    read_short(alloc, files, name, LONGEST_TEXT, long)
}

// The bytes of the file of this name, if it has at most `limit` of them. Where it has more, this is the refusal.
fn read_short<F: Files>(
    alloc: Global,
    files: &mut F,
    name: Name,
    limit: u64,
    long: Refusal,
) -> Result<Sequence<u8>, Halt>
    requires closed { (F.space files.old).mode ≡ Closed }
    requires limit { limit ≤ longest_file }
    requires untold { IsTrue (meaning_of long).untold }
    ensures judges { Judges InTurn (short_in long limit name)
        (λ asked. (asked ≡ name) × Fails F.space F.may_fail F.unbegun (Reads asked) files.old files.new)
        (F.space files.old) (F.space files.new) result }
    ensures short { IfOk result (λ bytes. length bytes ≤ limit) }
    ensures kept { F.unbegun files.old files.new }
{
    match read_whole(alloc, files, name.text(), limit) {
        Ok(bytes) => Ok(Sequence::of(bytes)),
        Err(ReadRefusal::Missing) => Err(Halt::Refused {
            refusal: Refusal::Missing { name },
        }),
        Err(ReadRefusal::Fault) => Err(Halt::Unread { name }),
        Err(ReadRefusal::Long { .. }) => Err(Halt::Refused { refusal: long }),
        Err(ReadRefusal::NoMemory) => Err(Halt::NoMemory),
    }
}

/// The bytes of an input's capture, from the file of this name, if that has at most `limit` of them. They are not
/// looked at.
pub fn read_file<F: Files>(
    alloc: Global,
    files: &mut F,
    name: Name,
    input: u16,
    limit: u64,
) -> Result<Sequence<u8>, Halt>
    requires closed { (F.space files.old).mode ≡ Closed }
    requires limit { limit ≤ longest_file }
    ensures judges { Judges InTurn (file_in name input limit)
        (λ asked. (asked ≡ name) × Fails F.space F.may_fail F.unbegun (Reads asked) files.old files.new)
        (F.space files.old) (F.space files.new) result }
    ensures short { IfOk result (λ bytes. length bytes ≤ limit) }
    ensures kept { F.unbegun files.old files.new }
{
    let long = Refusal::Capture {
        input,
        fault: CaptureFault::Long { limit },
    };
    read_short(alloc, files, name, limit, long)
}

/// The capture of an input, from the file of this name, if that has at most `limit` bytes: what any reader that goes
/// by the grammar makes of it.
#[tactic(auto, using(crate::proofs::Reached::exit_is, crate::proofs::Chain::judges_then))]
pub fn read_input<F: Files>(
    alloc: Global,
    files: &mut F,
    name: Name,
    input: u16,
    limit: u64,
) -> Result<Capture, Halt>
    requires closed { (F.space files.old).mode ≡ Closed }
    requires limit { limit ≤ longest_file }
    ensures judges { (r : Reader) → Judges InTurn (capture_in r name input limit)
        (λ asked. (asked ≡ name) × Fails F.space F.may_fail F.unbegun (Reads asked) files.old files.new)
        (F.space files.old) (F.space files.new) result }
    ensures kept { F.unbegun files.old files.new }
{
    let bytes = read_file(alloc, files, name, input, limit)?;
    match read_capture(alloc, bytes.into_vec()) {
        Ok(capture) => Ok(capture),
        Err(refusal) => Err(unreadable(input, refusal)),
    }
}

/// Why the capture of an input cannot be read.
pub fn unreadable(input: u16, refusal: PcapRefusal) -> Halt
    ensures { result ≡ halt_for input (fault_of refusal) }
{
    match refusal {
        PcapRefusal::NoMemory => Halt::NoMemory,
        _ => Halt::Refused {
            refusal: Refusal::Capture {
                input,
                fault: CaptureFault::Read(refusal),
            },
        },
    }
}

// What arrives at an input, which may have no file.
fn read_port<F: Files>(
    alloc: Global,
    files: &mut F,
    row: &PortRow,
    input: u16,
    limit: u64,
) -> Result<Capture, Halt>
    requires closed { (F.space files.old).mode ≡ Closed }
    requires limit { limit ≤ longest_file }
    ensures judges { (r : Reader) → Judges InTurn (packets_at r input limit row.now.read)
        (λ asked. Fails F.space F.may_fail F.unbegun (Reads asked) files.old files.new)
        (F.space files.old) (F.space files.new) result }
    ensures kept { F.unbegun files.old files.new }
{
    match &row.read {
        None => Ok(Capture::empty(alloc)),
        Some(name) => {
            let name = Name::of(alloc, name.text())?;
            read_input(alloc, files, name, input, limit)
        }
    }
}

/// What arrives at each input, in order. Where several have a fault, the first of these is told.
pub fn read_inputs<F: Files>(
    alloc: Global,
    files: &mut F,
    tables: &Tables,
) -> Result<Sequence<Capture>, Halt>
    requires closed { (F.space files.old).mode ≡ Closed }
    requires tables { AreTables tables.now }
    ensures judges { (r : Reader) → Judges InTurn (captures_in r tables.now)
        (λ asked. Fails F.space F.may_fail F.unbegun (Reads asked) files.old files.new)
        (F.space files.old) (F.space files.new) result }
    ensures kept { F.unbegun files.old files.new }
    ensures each { IfOk result (λ captures. length captures ≡ ports_of tables.now.setup) }
{
    let rows = tables.ports.as_slice();
    let mut captures = Vec::new(alloc);
    'ports: for (input, row) in rows.iter().enumerate() {
        let capture = read_port(alloc, files, row, input as u16, tables.limit_bytes)?;
        put_capture(&mut captures, capture)?;
    }
    Ok(Sequence::of(captures))
}

// One more capture, behind the others.
fn put_capture(captures: &mut Vec<Capture>, capture: Capture) -> Result<(), NoMemory>
    ensures { OnOk result (captures.new.items ≡ captures.old.items ++ capture ∷ []) }
{
    captures.push(capture)?;
    Ok(())
}
