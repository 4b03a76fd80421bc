//! Captures that are read, in one pass over the bytes.
ghost use Rattle.std.specs.Prelude.{◌≡◌, ◌+◌, ◌≤◌, Ok, Err, Some, None, List, [], length, IfErr, IfNone, IfOk, IfSome};
ghost use Rattle.cq_base.specs.Limits.{longest_file};
ghost use Rattle.cq_pcap.specs.Faults.{IsFaulty, fault_of};
ghost use Rattle.cq_pcap.specs.Reading.{first_packet, header_form, packets_of};
ghost use Rattle.cq_pcap.specs.Record.{Spells};
ghost use Rattle.cq_pcap.specs.Rows.{AreRowsTo, AreSpelt, GoesOn, IsFaultAt, IsRowOf};

use crate::form::Form;
use crate::{Capture, PacketRow};
use std::alloc::Global;
use thiserror::Error;

/// Why no capture is read.
#[derive(Clone, Copy, Debug, PartialEq, Eq, Error)]
pub enum PcapRefusal {
    /// The file has fewer than 24 bytes.
    #[error("no file header")]
    NoHeader,
    /// The first four bytes are no magic of the format.
    #[error("not a pcap file")]
    Magic,
    /// The version is not 2.4.
    #[error("not version 2.4")]
    Version,
    /// The link type is not Ethernet.
    #[error("not Ethernet")]
    LinkType,
    /// The file ends inside a record's header.
    #[error("cut record header at {offset}")]
    CutHeader {
        /// Where the record begins in the file, in bytes.
        offset: u64,
    },
    /// The file ends inside a record's captured bytes.
    #[error("cut record at {offset}")]
    CutBody {
        /// Where the record begins in the file, in bytes.
        offset: u64,
    },
    /// A record states a captured length of more than 262,144 bytes.
    #[error("record of {length} bytes at {offset}")]
    LongRecord {
        /// Where the record begins in the file, in bytes.
        offset: u64,
        /// The captured length that it states, in bytes.
        length: u32,
    },
    /// The places of the packets find no memory.
    #[error("out of memory")]
    NoMemory,
}

/// The bytes of a file header.
pub const FILE_HEADER: usize = 24;

/// The bytes of a record before its captured bytes.
pub const RECORD_HEADER: usize = 16;

const MAJOR: u16 = 2;

const MINOR: u16 = 4;

const ETHERNET: u32 = 1;

// The most captured bytes that a record may have.
const LONGEST_BODY: u32 = 262_144;

// In nanoseconds.
const SECOND: u64 = 1_000_000_000;

/// The form of a file, by its header: the order of the bytes that its magic tells, and the unit of its
/// subseconds.
///
/// The refusals are those of the header alone, the first in the order of `PcapRefusal`, and never want
/// of memory.
#[tactic(auto, using(crate::proofs::Rows::row_steps))]
pub fn form_of(bytes: &[u8]) -> Result<Form, PcapRefusal>
    ensures form { IfOk result (λ form. AreRowsTo form bytes.now 24 []) }
    ensures fault { IfErr result (IsFaultAt bytes.now None) }
{
    header_of(bytes)
}

// The same, by the function that reads a file from its front.
#[tactic(auto, using(std::proofs::lemmas::Bool::Decides::nat_tests), unfolding(crate::specs::Reading::header_form))]
fn header_of(bytes: &[u8]) -> Result<Form, PcapRefusal>
    ensures form { IfOk result (λ form. header_form bytes.now ≡ Ok form) }
    ensures fault { IfErr result (λ refusal. header_form bytes.now ≡ Err refusal) }
{
    if bytes.len() < FILE_HEADER {
        return Err(PcapRefusal::NoHeader);
    }
    let Some(form) = Form::at(bytes) else {
        return Err(PcapRefusal::Magic);
    };
    if form.short(bytes, 4) != MAJOR || form.short(bytes, 6) != MINOR {
        return Err(PcapRefusal::Version);
    }
    // The link type is the lower half of its field.
    if form.word(bytes, 20) % (1 << 16) != ETHERNET {
        return Err(PcapRefusal::LinkType);
    }
    Ok(form)
}

// The row of the record at the front of the bytes, which begin at a place of the file.
#[tactic(auto, using(std::proofs::lemmas::Bool::Decides::nat_tests), unfolding(crate::specs::Reading::first_packet))]
fn row_of(form: Form, bytes: &[u8], place: usize) -> Result<PacketRow, PcapRefusal>
    requires { place + length bytes.now ≤ longest_file }
    ensures row { IfOk result (λ row. IsRowOf form bytes.now place row) }
    ensures fault { IfErr result (λ refusal. first_packet form place bytes.now ≡ Err refusal) }
{
    let offset = place as u64;
    if bytes.len() < RECORD_HEADER {
        return Err(PcapRefusal::CutHeader { offset });
    }
    let len = form.word(bytes, 8);
    if len > LONGEST_BODY {
        return Err(PcapRefusal::LongRecord {
            offset,
            length: len,
        });
    }
    if bytes.len() - RECORD_HEADER < len as usize {
        return Err(PcapRefusal::CutBody { offset });
    }
    let seconds = u64::from(form.word(bytes, 0));
    let subseconds = u64::from(form.word(bytes, 4));
    Ok(PacketRow {
        stamp: seconds * SECOND + subseconds * form.subsecond(),
        original: form.word(bytes, 12),
        at: offset + RECORD_HEADER as u64,
        len,
    })
}

/// The row of the record that begins at a place of a file of at most 2^28 bytes, where the bytes before
/// it are a capture of this form. `None` says that the file ends there.
///
/// The refusals are those of a record, with the place as their offset, and never want of memory.
#[tactic(auto, using(crate::proofs::Rows::row_steps))]
pub fn row_at(bytes: &[u8], form: Form, at: u64) -> Result<Option<PacketRow>, PcapRefusal>
    requires small { length bytes.now ≤ longest_file }
    requires before { (rows : List PacketRow) × AreRowsTo form bytes.now at rows }
    ensures end { IfOk result (λ found. IfNone found (at ≡ length bytes.now)) }
    ensures begins { IfOk result (λ found. IfSome found (λ row. row.at ≡ at + 16)) }
    ensures inside { IfOk result (λ found. IfSome found (λ row. row.at + row.len ≤ length bytes.now)) }
    ensures more { IfOk result (λ found. IfSome found (GoesOn form bytes.now at)) }
    ensures fault { IfErr result (IsFaultAt bytes.now (Some at)) }
{
    if at == bytes.len() as u64 {
        return Ok(None);
    }
    let place = at as usize;
    Ok(Some(row_of(form, &bytes[place..], place)?))
}

// The rows of the records, which fill the file from its header on.
#[tactic(auto, using(crate::proofs::Refused::refusal_steps))]
fn rows_of(alloc: Global, bytes: &[u8]) -> Result<Vec<PacketRow>, PcapRefusal>
    requires { length bytes.now ≤ longest_file }
    ensures rows { IfOk result (λ rows. AreSpelt bytes.now rows.items) }
    ensures faulty { IfErr result (λ refusal. IfSome (fault_of refusal) (IsFaulty bytes.now)) }
{
    let form = form_of(bytes)?;
    let mut rows = Vec::new(alloc);
    let mut at = FILE_HEADER as u64;
    'records: while let Some(row) = row_at(bytes, form, at)? {
        at = row.at + u64::from(row.len);
        rows.push(row).or(Err(PcapRefusal::NoMemory))?;
    }
    Ok(rows)
}

/// Reads a file of at most 2^28 bytes: the capture that its bytes spell in the pcap file format, version
/// 2.4, in any of its four forms, or the first fault that they have.
///
/// The header's zone, sigfigs, snaplen and the upper half of its network field may be anything.
/// Subseconds of any number are added to the seconds as they stand. A refusal drops the bytes.
#[tactic(auto, using(crate::proofs::SpeltIsRead::read_steps))]
pub fn read_capture(alloc: Global, bytes: Vec<u8>) -> Result<Capture, PcapRefusal>
    requires { length bytes.items ≤ longest_file }
    ensures spelt { IfOk result (λ packets. Spells bytes.items packets) }
    ensures faulty { IfErr result (λ refusal. IfSome (fault_of refusal) (IsFaulty bytes.items)) }
    ensures read { IfOk result (λ packets. packets_of bytes.items ≡ Ok packets) }
    ensures unread { IfErr result (λ refusal. IfSome (fault_of refusal) (λ fault. packets_of bytes.items ≡ Err fault)) }
{
    let rows = rows_of(alloc, &bytes)?;
    Ok(Capture::of_rows(bytes, rows))
}
