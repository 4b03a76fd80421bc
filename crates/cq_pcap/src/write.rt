//! Captures that are written.
ghost use Rattle.std.specs.Prelude.{◌≡◌, ◌≤◌, ◌++◌, [], length, All, IfOk, OnErr, OnOk};
ghost use Rattle.cq_pcap.specs.Captured.{longest_body};
ghost use Rattle.cq_pcap.specs.Written.{record_of, written};

use crate::{FILE_HEADER, RECORD_HEADER};
use byteorder::{ByteOrder, LittleEndian};
use cq_base::{NoMemory, Sequence};
use std::alloc::Global;

/// A packet that is to be written to a capture.
#[derive(Drop)]
pub struct OutPacket {
    /// The stamp, in nanoseconds.
    pub stamp: u128,
    /// The length of the packet on the wire, in bytes.
    pub original: u32,
    /// The captured bytes.
    pub body: Sequence<u8>,
}

// Little-endian with nanoseconds, version 2.4, zone and sigfigs 0, at most 262,144 bytes a packet,
// Ethernet.
const HEADER: [u8; FILE_HEADER] = [
    0x4d, 0x3c, 0xb2, 0xa1, 2, 0, 4, 0, 0, 0, 0, 0, 0, 0, 0, 0, 0, 0, 4, 0, 1, 0, 0, 0,
];

// In nanoseconds.
const SECOND: u128 = 1_000_000_000;

/// The bytes of a capture without packets, with room for so many bytes in all: where the file comes to no more, it
/// never moves while packets are put behind its header. The error is want of memory.
pub fn begin_capture(alloc: Global, size: usize) -> Result<Vec<u8>, NoMemory>
    ensures { IfOk result (λ v. v.items ≡ written []) }
{
    let mut out = Vec::with_capacity(alloc, size)?;
    out.extend_from_slice(&HEADER)?;
    Ok(out)
}

/// Puts the record of one more packet behind the bytes of a capture: its stamp in nanoseconds, its length on the wire,
/// and its captured bytes, at most 262,144. The seconds of the stamp are written modulo 2^32. The error is want of
/// memory, and then the bytes are as before.
#[tactic(auto, using(std::proofs::Common::append_assoc))]
pub fn put_packet(
    out: &mut Vec<u8>,
    stamp: u128,
    original: u32,
    body: &[u8],
) -> Result<(), NoMemory>
    requires { length body.now ≤ longest_body }
    ensures record { OnOk result (out.new.items ≡
        out.old.items ++ record_of (record { stamp = stamp; original = original; body = body.now })) }
    ensures as_before { OnErr result (out.new.items ≡ out.old.items) }
{
    let figures = [
        (stamp / SECOND % (1 << 32)) as u32,
        (stamp % SECOND) as u32,
        body.len() as u32,
        original,
    ];
    let mut header = [0; RECORD_HEADER];
    LittleEndian::write_u32_into(&figures, &mut header);
    let before = out.len();
    out.extend_from_slice(&header)?;
    if out.extend_from_slice(body).is_err() {
        out.truncate(before);
        return Err(NoMemory);
    }
    Ok(())
}

/// The bytes of a capture with these packets, in order, each with at most 262,144 captured bytes: in
/// the pcap file format, version 2.4, little-endian with nanoseconds. The seconds of a stamp are
/// written modulo 2^32. The error is want of memory.
pub fn capture_bytes(alloc: Global, packets: &[OutPacket]) -> Result<Vec<u8>, NoMemory>
    requires { All (λ p. length p.body ≤ longest_body) packets.now }
    ensures { IfOk result (λ v. v.items ≡ written packets.now) }
{
    let size = packets.iter().fold(FILE_HEADER, |size, packet| {
        size.saturating_add(RECORD_HEADER + packet.body.as_slice().len())
    });
    let mut out = begin_capture(alloc, size)?;
    for packet in packets {
        put_packet(
            &mut out,
            packet.stamp,
            packet.original,
            packet.body.as_slice(),
        )?;
    }
    Ok(out)
}
