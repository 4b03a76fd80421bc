//! Captures of the format's own values, byte by byte.
ghost use Rattle.std.specs.Prelude.{◌≤◌, All, IfOk, length};
ghost use Rattle.cq_base.specs.Limits.{longest_file};
ghost use Rattle.cq_pcap.specs.Captured.{longest_body};

use cq_base::{NoMemory, Sequence};
use cq_pcap::{
    Capture, Form, OutPacket, PacketRow, PcapRefusal, capture_bytes, form_of, read_capture, row_at,
};
use cq_trial_kit::{BIG_MICROSECONDS, BIG_NANOSECONDS, FORMS, HEADER, MICROSECONDS, NANOSECONDS};
use std::alloc::Global;

// The row of that packet.
const PACKET: PacketRow = PacketRow {
    stamp: 7_000_250_000,
    original: 2,
    at: 40,
    len: 2,
};

// The capture that the bytes spell, or why they spell none.
fn capture_of(alloc: Global, bytes: &[u8]) -> Result<Capture, PcapRefusal>
    requires { length bytes.now ≤ longest_file }
{
    match bytes.to_vec(alloc) {
        Ok(bytes) => read_capture(alloc, bytes),
        Err(_) => Err(PcapRefusal::NoMemory),
    }
}

// How many packets are read, or why none.
fn packets_read(alloc: Global, bytes: &[u8]) -> Result<usize, PcapRefusal>
    requires { length bytes.now ≤ longest_file }
{
    match capture_of(alloc, bytes) {
        Ok(capture) => Ok(capture.rows().len()),
        Err(refusal) => Err(refusal),
    }
}

// Whether a capture has that packet alone.
fn has_the_packet(capture: &Capture) -> bool {
    let rows = capture.rows();
    rows.len() == 1 && rows[0] == PACKET && capture.body(0) == [0xab, 0xcd].as_slice()
}

// Whether the bytes spell a capture of that packet.
fn spell_the_packet(alloc: Global, bytes: &[u8]) -> bool
    requires { length bytes.now ≤ longest_file }
{
    match capture_of(alloc, bytes) {
        Ok(capture) => has_the_packet(&capture),
        Err(_) => false,
    }
}

#[test]
fn each_form_is_read(rt: HostRuntime) {
    for bytes in FORMS {
        assert!(rt; spell_the_packet(rt.alloc(), &bytes));
    }
}

// Whether the capture that begins with nothing has no packet.
fn none_is_empty(alloc: Global) -> bool {
    Capture::empty(alloc).rows().is_empty()
}

#[test]
fn an_empty_capture_has_no_packets(rt: HostRuntime) {
    assert!(rt; none_is_empty(rt.alloc()));
}

const LITTLE: [u8; 4] = [0xd4, 0xc3, 0xb2, 0xa1];

const BIG: [u8; 4] = [0xa1, 0xb2, 0xc3, 0xd4];

// The magic, the version, the network field, and what is read.
type Header = ([u8; 4], [u8; 4], [u8; 4], Result<usize, PcapRefusal>);

const HEADERS: &[Header] = &[
    (LITTLE, [2, 0, 4, 0], [1, 0, 0xff, 0xff], Ok(0)),
    (BIG, [0, 2, 0, 4], [0xff, 0xff, 0, 1], Ok(0)),
    // The block type of pcapng, and the magic of modified pcap.
    (
        [0x0a, 0x0d, 0x0d, 0x0a],
        [2, 0, 4, 0],
        [1, 0, 0, 0],
        Err(PcapRefusal::Magic),
    ),
    (
        [0x34, 0xcd, 0xb2, 0xa1],
        [2, 0, 4, 0],
        [1, 0, 0, 0],
        Err(PcapRefusal::Magic),
    ),
    ([0; 4], [0; 4], [0; 4], Err(PcapRefusal::Magic)),
    (
        LITTLE,
        [0, 2, 0, 4],
        [1, 0, 0, 0],
        Err(PcapRefusal::Version),
    ),
    (BIG, [0, 2, 0, 3], [0; 4], Err(PcapRefusal::Version)),
    (
        LITTLE,
        [2, 0, 4, 0],
        [0, 0, 1, 0],
        Err(PcapRefusal::LinkType),
    ),
    (BIG, [0, 2, 0, 4], [1, 0, 0, 0], Err(PcapRefusal::LinkType)),
    (
        BIG,
        [0, 2, 0, 4],
        [0, 1, 0, 101],
        Err(PcapRefusal::LinkType),
    ),
];

// Whether a header is read so. Without its last byte it is none. Zone, sigfigs and snaplen are ignored.
fn is_header_read(alloc: Global, header: &Header) -> bool {
    let (magic, version, network, read) = *header;
    let fields = [magic, version, [9; 4], [9; 4], [9; 4], network];
    let header = fields.as_flattened();
    if header.len() != 24 {
        return false;
    }
    let cut = packets_read(alloc, &header[..23]);
    packets_read(alloc, header) == read && cut == Err(PcapRefusal::NoHeader)
}

#[test]
fn a_header_is_refused_by_its_first_fault(rt: HostRuntime) {
    for header in HEADERS {
        assert!(rt; is_header_read(rt.alloc(), header));
    }
}

#[test]
fn no_bytes_are_no_header(rt: HostRuntime) {
    assert!(rt; packets_read(rt.alloc(), &[]) == Err(PcapRefusal::NoHeader));
}

const CUT_HEADER: PcapRefusal = PcapRefusal::CutHeader { offset: 42 };

const CUT_BODY: PcapRefusal = PcapRefusal::CutBody { offset: 42 };

// How many bytes of a second record are there, and what is read.
type Cut = (u8, Result<usize, PcapRefusal>);

const CUTS: &[Cut] = &[
    (0, Ok(1)),
    (1, Err(CUT_HEADER)),
    (15, Err(CUT_HEADER)),
    (16, Err(CUT_BODY)),
    (17, Err(CUT_BODY)),
    (18, Ok(2)),
];

// Whether a capture is read so with that many bytes of a second record, which is as the first.
fn is_read_with(alloc: Global, capture: &[u8], cut: &Cut) -> bool {
    let (there, read) = *cut;
    let Some(part) = capture.get(24..24 + usize::from(there)) else {
        return false;
    };
    match [capture, part].concat(alloc) {
        Ok(bytes) => bytes.len() <= 60 && packets_read(alloc, &bytes) == read,
        Err(_) => false,
    }
}

// Whether one in each form is.
fn forms_are_read_with(alloc: Global, cut: &Cut) -> bool {
    FORMS.iter().all(|bytes| is_read_with(alloc, bytes, cut))
}

#[test]
fn a_cut_record_is_told_by_its_place(rt: HostRuntime) {
    for cut in CUTS {
        assert!(rt; forms_are_read_with(rt.alloc(), cut));
    }
}

const CUT_AT_FIRST: PcapRefusal = PcapRefusal::CutBody { offset: 24 };

const LONG: PcapRefusal = PcapRefusal::LongRecord {
    offset: 24,
    length: 262_145,
};

const LONGEST: PcapRefusal = PcapRefusal::LongRecord {
    offset: 24,
    length: 4_294_967_295,
};

// The captured length that a big-endian record states, the captured bytes that are there, and what is
// read. A record that is too long is told before the missing bytes.
const LONG_BODIES: [([u8; 4], usize, Result<usize, PcapRefusal>); 5] = [
    ([0, 4, 0, 0], 262_144, Ok(1)),
    ([0, 4, 0, 0], 262_143, Err(CUT_AT_FIRST)),
    ([0, 4, 0, 1], 262_145, Err(LONG)),
    ([0, 4, 0, 1], 0, Err(LONG)),
    ([0xff; 4], 0, Err(LONGEST)),
];

// Whether one record that states this captured length, with so many captured bytes, is read so.
fn is_body_read(
    alloc: Global,
    stated: &[u8],
    there: usize,
    read: Result<usize, PcapRefusal>,
) -> bool
    requires { there ≤ 262145 }
{
    let Ok(mut bytes) = [&BIG_MICROSECONDS[..32], stated, stated].concat(alloc) else {
        return false;
    };
    match bytes.resize(40 + there, 0) {
        Ok(()) => packets_read(alloc, &bytes) == read,
        Err(_) => false,
    }
}

#[test]
fn the_longest_body_has_262144_bytes(rt: HostRuntime) {
    for (stated, there, read) in LONG_BODIES {
        assert!(rt; is_body_read(rt.alloc(), &stated, there, read));
    }
}

// Whether these bytes are written for the packets.
fn are_written_as(alloc: Global, packets: &[OutPacket], wanted: &[u8]) -> bool
    requires { All (λ p. length p.body ≤ longest_body) packets.now }
{
    match capture_bytes(alloc, packets) {
        Ok(bytes) => bytes.as_slice() == wanted,
        Err(_) => false,
    }
}

// That packet, to be written.
fn out_packet(alloc: Global) -> Result<OutPacket, NoMemory>
    ensures { IfOk result (λ p. length p.body ≤ longest_body) }
{
    let body = [0xab, 0xcd].to_vec(alloc)?;
    Ok(OutPacket {
        stamp: 7_000_250_000,
        original: 2,
        body: Sequence::of(body),
    })
}

fn nothing_is_written(alloc: Global) -> bool {
    are_written_as(alloc, &[], &HEADER)
}

fn packet_is_written(alloc: Global) -> bool {
    match out_packet(alloc) {
        Ok(packet) => are_written_as(alloc, &[packet], &NANOSECONDS),
        Err(_) => false,
    }
}

#[test]
fn a_packet_is_written_with_nanoseconds(rt: HostRuntime) {
    assert!(rt; nothing_is_written(rt.alloc()) && packet_is_written(rt.alloc()));
}

const TEXTS: &[(PcapRefusal, &str)] = &[
    (PcapRefusal::NoHeader, "no file header"),
    (PcapRefusal::Magic, "not a pcap file"),
    (PcapRefusal::Version, "not version 2.4"),
    (PcapRefusal::LinkType, "not Ethernet"),
    (
        PcapRefusal::CutHeader { offset: 24 },
        "cut record header at 24",
    ),
    (PcapRefusal::CutBody { offset: 24 }, "cut record at 24"),
    (
        PcapRefusal::LongRecord {
            offset: 24,
            length: 262_145,
        },
        "record of 262145 bytes at 24",
    ),
    (PcapRefusal::NoMemory, "out of memory"),
];

// Whether the refusal has this text.
fn has_text(alloc: Global, row: &(PcapRefusal, &str)) -> bool {
    let (refusal, text) = *row;
    match refusal.to_string(alloc) {
        Ok(told) => told.as_str() == text,
        Err(_) => false,
    }
}

#[test]
fn a_refusal_says_why(rt: HostRuntime) {
    for row in TEXTS {
        assert!(rt; has_text(rt.alloc(), row));
    }
}

// The form of a file, and the row of its first record.
fn first_found(bytes: &[u8]) -> Result<(Form, Option<PacketRow>), PcapRefusal>
    requires { length bytes.now ≤ longest_file }
{
    let form = form_of(bytes)?;
    Ok((form, row_at(bytes, form, 24)?))
}

// Whether the bytes are of this form, and that packet's row stands behind their header.
fn is_found(big: bool, nano: bool, bytes: &[u8]) -> bool
    requires { length bytes.now ≤ longest_file }
{
    first_found(bytes) == Ok((Form { big, nano }, Some(PACKET)))
}

fn are_found() -> bool {
    is_found(false, false, &MICROSECONDS)
        && is_found(false, true, &NANOSECONDS)
        && is_found(true, false, &BIG_MICROSECONDS)
        && is_found(true, true, &BIG_NANOSECONDS)
}

#[test]
fn the_first_record_is_found_by_the_form(rt: HostRuntime) {
    assert!(rt; are_found());
}
