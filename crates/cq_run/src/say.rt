//! The line that tells why a run stopped. Nothing here takes memory.
ghost use Rattle.std.specs.Prelude.{◌++◌, codes};
ghost use Rattle.cq_run.specs.Terms.{decimal, denial_text, log_text, refusal_text, meaning_of, state_fault_text, Says, joined, line, piece_text, halt_text, unwritten_text, stop_text};

use crate::{CaptureFault, Denial, Halt, Refusal, StateFault, Stop, Unwritten};
use cq_audit::AuditRefusal;
use cq_base::{MOST_DIGITS, Name, Port, Slot, TagFault, digits};
use cq_pcap::PcapRefusal;
use cq_space::{Sink, WriteFault, put_all};

const USAGE: &[u8; 174] =
    b"usage: cq_switch pass IN OUT | check CONFIG | ideal CONFIG | run CONFIG \
    | soak SEED PORTS SLOTS | audit CONFIG | part CONFIG SLOTS STATE | resume CONFIG STATE | stream CONFIG";

const READ_FAULT: &[u8; 12] = b"read fault: ";

const WRITE_FAULT: &[u8; 13] = b"write fault: ";

// A piece of a line.
#[derive(Clone, Copy)]
enum Piece<'a> {
    Text(&'a [u8]),
    // A number, in decimal digits.
    Number(u64),
}

/// Puts the line of a stop. After a fault, which comes only where the sink's count of faults rose, a
/// front of the line was put.
pub fn say<S: Sink>(sink: &mut S, stop: &Stop) -> Result<(), WriteFault>
    ensures { Says S.taken S.faults (line (stop_text stop.now)) sink.old sink.new result }
{
    match stop {
        Stop::Halted { halt } => say_halt(sink, halt),
        Stop::Cut { at } => say_unwritten(sink, at),
    }
}

fn say_halt<S: Sink>(sink: &mut S, halt: &Halt) -> Result<(), WriteFault>
    ensures { Says S.taken S.faults (line (halt_text halt.now)) sink.old sink.new result }
{
    match halt {
        Halt::Refused { refusal } => say_refusal(sink, refusal),
        Halt::Unread { name } => say_name(sink, READ_FAULT, name),
        Halt::NoMemory => say_line(sink, b"no memory"),
    }
}

fn say_unwritten<S: Sink>(sink: &mut S, at: &Unwritten) -> Result<(), WriteFault>
    ensures { Says S.taken S.faults (line (unwritten_text at.now)) sink.old sink.new result }
{
    match at {
        Unwritten::File { name } => say_name(sink, WRITE_FAULT, name),
        Unwritten::Output => say_line(sink, b"write fault: -"),
    }
}

fn say_refusal<S: Sink>(sink: &mut S, refusal: &Refusal) -> Result<(), WriteFault>
    ensures { Says S.taken S.faults (line (meaning_of refusal.now).text) sink.old sink.new result }
{
    match refusal {
        Refusal::Words => say_line(sink, USAGE),
        Refusal::Missing { name } => say_name(sink, READ_FAULT, name),
        Refusal::Configuration { code, path } => say_configuration(sink, *code, path),
        Refusal::Capture { input, fault } => say_capture(sink, *input, *fault),
        Refusal::Tag { fault } => say_tag(sink, *fault),
        Refusal::Audit { denial } => say_denial(sink, *denial),
        Refusal::State { fault } => say_state(sink, *fault),
    }
}

#[tactic(auto, using(crate::proofs::Put::puts_as))]
fn say_configuration<S: Sink>(sink: &mut S, code: u8, path: &Name) -> Result<(), WriteFault>
    ensures { Says S.taken S.faults (line (meaning_of (Refusal.Configuration code path.now)).text)
        sink.old sink.new result }
{
    let path = path.text().as_bytes();
    put_line(
        sink,
        &[
            Piece::Text(b"configuration: C"),
            Piece::Number(u64::from(code)),
            Piece::Text(b" at "),
            Piece::Text(path),
        ],
    )
}

#[tactic(auto, using(crate::proofs::Put::puts_as))]
fn say_tag<S: Sink>(sink: &mut S, fault: TagFault) -> Result<(), WriteFault>
    ensures { Says S.taken S.faults (line (meaning_of (Refusal.Tag fault)).text) sink.old sink.new result }
{
    put_line(
        sink,
        &[
            Piece::Text(b"tag: slot "),
            Piece::Number(fault.slot),
            Piece::Text(b", input "),
            Piece::Number(u64::from(fault.input)),
            Piece::Text(b", output "),
            Piece::Number(u64::from(fault.output)),
        ],
    )
}

fn say_capture<S: Sink>(sink: &mut S, input: u16, fault: CaptureFault) -> Result<(), WriteFault>
    ensures { Says S.taken S.faults (line (meaning_of (Refusal.Capture input fault)).text) sink.old sink.new result }
{
    match fault {
        CaptureFault::Read(refusal) => say_unreadable(sink, input, refusal),
        CaptureFault::Long { limit } => say_fault_with(sink, input, b"8, limit ", limit),
    }
}

fn say_unreadable<S: Sink>(sink: &mut S, input: u16, refusal: PcapRefusal) -> Result<(), WriteFault>
    ensures { Says S.taken S.faults (line (codes "capture of input " ++ decimal input ++ codes ": "
        ++ refusal_text refusal)) sink.old sink.new result }
{
    match refusal {
        PcapRefusal::NoHeader => say_fault(sink, input, b"1"),
        PcapRefusal::Magic => say_fault(sink, input, b"2"),
        PcapRefusal::Version => say_fault(sink, input, b"3"),
        PcapRefusal::LinkType => say_fault(sink, input, b"4"),
        PcapRefusal::CutHeader { offset } => say_fault_with(sink, input, b"5 at ", offset),
        PcapRefusal::CutBody { offset } => say_fault_with(sink, input, b"6 at ", offset),
        PcapRefusal::LongRecord { offset, length } => say_long_record(sink, input, offset, length),
        PcapRefusal::NoMemory => say_fault(sink, input, b""),
    }
}

// The fault of a capture. Its head is put in each of these three, so that a line is one call.
#[tactic(auto, using(crate::proofs::Put::puts_as))]
fn say_fault<S: Sink>(sink: &mut S, input: u16, fault: &[u8]) -> Result<(), WriteFault>
    ensures { Says S.taken S.faults (line (codes "capture of input " ++ decimal input ++ codes ": "
        ++ fault.now)) sink.old sink.new result }
{
    put_line(
        sink,
        &[
            Piece::Text(b"capture of input "),
            Piece::Number(u64::from(input)),
            Piece::Text(b": "),
            Piece::Text(fault),
        ],
    )
}

// The same, with a figure behind it.
#[tactic(auto, using(crate::proofs::Put::puts_as))]
fn say_fault_with<S: Sink>(
    sink: &mut S,
    input: u16,
    fault: &[u8],
    figure: u64,
) -> Result<(), WriteFault>
    ensures { Says S.taken S.faults (line (codes "capture of input " ++ decimal input ++ codes ": "
        ++ fault.now ++ decimal figure)) sink.old sink.new result }
{
    put_line(
        sink,
        &[
            Piece::Text(b"capture of input "),
            Piece::Number(u64::from(input)),
            Piece::Text(b": "),
            Piece::Text(fault),
            Piece::Number(figure),
        ],
    )
}

#[tactic(auto, using(crate::proofs::Put::puts_as))]
fn say_long_record<S: Sink>(
    sink: &mut S,
    input: u16,
    offset: u64,
    length: u32,
) -> Result<(), WriteFault>
    ensures { Says S.taken S.faults (line (codes "capture of input " ++ decimal input ++ codes ": "
        ++ refusal_text (PcapRefusal.LongRecord offset length))) sink.old sink.new result }
{
    put_line(
        sink,
        &[
            Piece::Text(b"capture of input "),
            Piece::Number(u64::from(input)),
            Piece::Text(b": 7 at "),
            Piece::Number(offset),
            Piece::Text(b", length "),
            Piece::Number(u64::from(length)),
        ],
    )
}

fn say_denial<S: Sink>(sink: &mut S, denial: Denial) -> Result<(), WriteFault>
    ensures { Says S.taken S.faults (line (denial_text denial)) sink.old sink.new result }
{
    match denial {
        Denial::LongTrace => say_line(sink, b"audit: A6 trace"),
        Denial::LongLog => say_line(sink, b"audit: A6 log"),
        Denial::Log(refusal) => say_log(sink, refusal),
        Denial::Trace { line } => say_number(sink, b"audit: A5 at line ", line),
    }
}

fn say_log<S: Sink>(sink: &mut S, refusal: AuditRefusal) -> Result<(), WriteFault>
    ensures { Says S.taken S.faults (line (log_text refusal)) sink.old sink.new result }
{
    match refusal {
        AuditRefusal::Line { line } => say_number(sink, b"audit: A1 at line ", line),
        AuditRefusal::Transfer { slot, phase, input } => say_transfer(sink, slot, phase, input),
        AuditRefusal::Blocking {
            slot,
            phase,
            input,
            output,
        } => say_blocking(sink, slot, phase, input, output),
        AuditRefusal::Left { line } => say_number(sink, b"audit: A4 at line ", line),
        AuditRefusal::NoMemory => say_line(sink, b""),
    }
}

#[tactic(auto, using(crate::proofs::Put::puts_as))]
fn say_transfer<S: Sink>(sink: &mut S, slot: Slot, phase: u8, input: Port) -> Result<(), WriteFault>
    ensures { Says S.taken S.faults (line (log_text (AuditRefusal.Transfer slot phase input)))
        sink.old sink.new result }
{
    put_line(
        sink,
        &[
            Piece::Text(b"audit: A2 at slot "),
            Piece::Number(slot),
            Piece::Text(b" phase "),
            Piece::Number(u64::from(phase)),
            Piece::Text(b" input "),
            Piece::Number(u64::from(input)),
        ],
    )
}

#[tactic(auto, using(crate::proofs::Put::puts_as))]
fn say_blocking<S: Sink>(
    sink: &mut S,
    slot: Slot,
    phase: u8,
    input: Port,
    output: Port,
) -> Result<(), WriteFault>
    ensures { Says S.taken S.faults (line (log_text (AuditRefusal.Blocking slot phase input output)))
        sink.old sink.new result }
{
    put_line(
        sink,
        &[
            Piece::Text(b"audit: A3 at slot "),
            Piece::Number(slot),
            Piece::Text(b" phase "),
            Piece::Number(u64::from(phase)),
            Piece::Text(b" input "),
            Piece::Number(u64::from(input)),
            Piece::Text(b" output "),
            Piece::Number(u64::from(output)),
        ],
    )
}

fn say_state<S: Sink>(sink: &mut S, fault: StateFault) -> Result<(), WriteFault>
    ensures { Says S.taken S.faults (line (state_fault_text fault)) sink.old sink.new result }
{
    match fault {
        StateFault::Long => say_line(sink, b"state: S4"),
        StateFault::Line { line } => say_number(sink, b"state: S1 at line ", line),
        StateFault::Shape => say_line(sink, b"state: S2"),
        StateFault::Unsound { clause } => {
            say_number(sink, b"state: S3 clause ", u64::from(clause))
        }
    }
}

fn say_line<S: Sink>(sink: &mut S, text: &[u8]) -> Result<(), WriteFault>
    ensures { Says S.taken S.faults (line text.now) sink.old sink.new result }
{
    put_line(sink, &[Piece::Text(text)])
}

#[tactic(auto, using(crate::proofs::Put::puts_as))]
fn say_name<S: Sink>(sink: &mut S, head: &[u8], name: &Name) -> Result<(), WriteFault>
    ensures { Says S.taken S.faults (line (head.now ++ name.now)) sink.old sink.new result }
{
    let name = name.text().as_bytes();
    put_line(sink, &[Piece::Text(head), Piece::Text(name)])
}

fn say_number<S: Sink>(sink: &mut S, head: &[u8], number: u64) -> Result<(), WriteFault>
    ensures { Says S.taken S.faults (line (head.now ++ decimal number)) sink.old sink.new result }
{
    put_line(sink, &[Piece::Text(head), Piece::Number(number)])
}

fn put_line<S: Sink>(sink: &mut S, pieces: &[Piece]) -> Result<(), WriteFault>
    ensures { Says S.taken S.faults (line (joined pieces.now)) sink.old sink.new result }
{
    'pieces: for piece in pieces {
        put_piece(sink, *piece)?;
    }
    put_all(sink, b"\n")
}

#[tactic(auto, using(crate::proofs::Put::puts_all, std::proofs::lemmas::List::take_at))]
fn put_piece<S: Sink>(sink: &mut S, piece: Piece) -> Result<(), WriteFault>
    ensures { Says S.taken S.faults (piece_text piece.entry) sink.old sink.new result }
{
    match piece {
        Piece::Text(text) => put_all(sink, text),
        Piece::Number(number) => {
            let mut places = [0u8; MOST_DIGITS];
            let count = digits(u128::from(number), &mut places);
            put_all(sink, &places[..count])
        }
    }
}
