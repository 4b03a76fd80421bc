//! Reading the captures of a configuration, while readers decode those that were read before.
//!
//! Files are read one after another, as where they are read in turn, but the next is read while the last is
//! decoded. Each reader that is started is joined by the call that started it, after those of the later inputs,
//! whatever they come to: neither what was begun nor its reader can be dropped, and only a join uses a reader up. So
//! a way out that leaves one behind is no program.
ghost use Rattle.std.specs.Prelude.{◌≡◌, ◌+◌, ◌≤◌, ◌<◌, ◌^◌, [], IfErr, IfOk, IfSome, MatchOption, length};
ghost use Rattle.cq_run.specs.Terms.{Spells, AreTables, Fails, Reads, Closed, HasBegun, IsBegun, source, IsHaltFor, IsInFront, Halts, Judges, Ahead, InTurn, Reader, captures_from, packets_at, longest_file};

use crate::Halt;
use crate::decoding::{Decoding, begin, finish};
use crate::reading::{read_file, unreadable};
use cq_base::{Name, Port, Sequence};
use cq_pcap::Capture;
use cq_route::{PortRow, Tables};
use cq_space::Files;
use cq_stream::Watch;
use std::alloc::Global;
use std::sync::Wait;
use std::thread::Threads;

/// What arrives at the inputs of these rows of the tables, in order, of which the first is this input. Where several
/// have a fault, the first of these is told; files behind it may have been read, and a fault met there is counted and
/// not told. Each reader that was started is joined.
pub fn stream_from<R: Threads + Wait + Copy + Send + 'static, F: Files, W: Watch + 'static>(
    rt: R,
    alloc: Global,
    files: &mut F,
    tables: &Tables,
    rows: &[PortRow],
    input: Port,
    watch: &W,
) -> Result<Sequence<Capture>, Halt>
    requires closed { (F.space files.old).mode ≡ Closed }
    requires tables { AreTables tables.now }
    requires few { input + length rows.now < 2 ^ 16 }
    ensures judges { (r : Reader) → Judges Ahead (captures_from r tables.now.limit_bytes input rows.now)
        (λ asked. Fails F.space F.may_fail F.unbegun (Reads asked) files.old files.new)
        (F.space files.old) (F.space files.new) result }
    ensures kept { F.unbegun files.old files.new }
    ensures each { IfOk result (λ captures. length captures ≡ length rows.now) }
{
    match rows.split_first() {
        None => Ok(Sequence::of(Vec::new(alloc))),
        Some((row, rest)) => {
            let begun = begin_port(rt, alloc, files, row, input, tables.limit_bytes, watch)?;
            let later = stream_from(rt, alloc, files, tables, rest, input + 1, watch);
            in_front(finish_port(&rt, alloc, begun, input), later)
        }
    }
}

// Reads the file of an input, and begins to decode it. Where it has no file there is nothing to decode.
#[tactic(auto, using(crate::proofs::Reached::exit_is, crate::proofs::Chain::judges_then))]
fn begin_port<R: Threads + Wait + Copy + Send + 'static, F: Files, W: Watch + 'static>(
    rt: R,
    alloc: Global,
    files: &mut F,
    row: &PortRow,
    input: Port,
    limit: u64,
    watch: &W,
) -> Result<Option<Decoding>, Halt>
    requires closed { (F.space files.old).mode ≡ Closed }
    requires limit { limit ≤ longest_file }
    ensures begun { IfOk result (HasBegun row.now input limit (F.space files.old) (F.space files.new)) }
    ensures halts { IfErr result (λ halt. (r : Reader) → Halts InTurn (packets_at r input limit row.now.read)
        (λ asked. Fails F.space F.may_fail F.unbegun (Reads asked) files.old files.new)
        (F.space files.old) (F.space files.new) halt) }
    ensures told { (F.space files.new).told ≡ (F.space files.old).told }
    ensures closed { (F.space files.new).mode ≡ Closed }
    ensures kept { F.unbegun files.old files.new }
{
    match &row.read {
        None => Ok(None),
        Some(name) => {
            let name = Name::of(alloc, name.text())?;
            let bytes = read_file(alloc, files, name, input, limit)?;
            Ok(Some(begin(rt, alloc, bytes.into_vec(), input, watch.again())?))
        }
    }
}

// What arrives at an input. Its reader is joined, whatever the answer is.
fn finish_port<R: Threads + Wait>(
    rt: &R,
    alloc: Global,
    begun: Option<Decoding>,
    input: Port,
) -> Result<Capture, Halt>
    requires begun { IfSome begun IsBegun }
    requires small { IfSome begun (λ decoding. length (source decoding) ≤ longest_file) }
    ensures spelt { IfOk result (λ packets. MatchOption begun (packets ≡ [])
        (λ decoding. Spells (source decoding) packets)) }
    ensures halts { IfErr result (λ halt. MatchOption begun ⊥ (λ decoding. IsHaltFor input (source decoding) halt)) }
{
    match begun {
        None => Ok(Capture::empty(alloc)),
        Some(decoding) => match finish(rt, alloc, decoding) {
            Ok(capture) => Ok(capture),
            Err(refusal) => Err(unreadable(input, refusal)),
        },
    }
}

// The first capture in front of the later ones. Where both came to a halt, that of the first is told.
fn in_front(
    first: Result<Capture, Halt>,
    later: Result<Sequence<Capture>, Halt>,
) -> Result<Sequence<Capture>, Halt>
    ensures { IsInFront first later result }
{
    let capture = first?;
    let mut captures = later?.into_vec();
    match captures.insert(0, capture) {
        Ok(()) => Ok(Sequence::of(captures)),
        Err(_) => Err(Halt::NoMemory),
    }
}
