//! Captures, byte by byte as the standard has them, by none of the program's writers.
use cq_base::NoMemory;
use cq_trial_kit::HEADER;
use std::alloc::Global;

/// A capture's header: little-endian, microseconds.
pub const MICROSECONDS: [u8; 24] = [
    0xd4, 0xc3, 0xb2, 0xa1, 2, 0, 4, 0, 0, 0, 0, 0, 0, 0, 0, 0, 0, 0, 4, 0, 1, 0, 0, 0,
];

/// The first bytes of a frame: two addresses and a type. Zeros follow.
pub const FRAME: [u8; 14] = [2, 0, 0, 0, 0, 0, 2, 0, 0, 0, 0, 0xaa, 0x88, 0xb5];

/// Seconds, subseconds, captured length and original length.
pub type Packet = (u32, u32, u32, u32);

/// Seconds, nanoseconds, the output that the frame is addressed to, and its bytes, captured whole.
pub type Frame = (u32, u32, u8, u32);

/// Puts the four numbers of a record header, and as many bytes as the third says: the head, then zeros.
pub fn put_packet(capture: &mut Vec<u8>, numbers: [u32; 4], head: &[u8]) -> Result<(), NoMemory> {
    for number in numbers {
        capture.extend_from_slice(&number.to_le_bytes())?;
    }
    for i in 0..numbers[2] as usize {
        capture.push(if i < head.len() { head[i] } else { 0 })?;
    }
    Ok(())
}

/// Puts these packets.
pub fn put_packets(capture: &mut Vec<u8>, packets: &[Packet]) -> Result<(), NoMemory> {
    for (seconds, subseconds, captured, original) in packets {
        let numbers = [*seconds, *subseconds, *captured, *original];
        put_packet(capture, numbers, &FRAME)?;
    }
    Ok(())
}

/// A capture with this header, of these packets.
pub fn capture_with(alloc: Global, header: &[u8], packets: &[Packet]) -> Result<Vec<u8>, NoMemory> {
    let mut capture = header.to_vec(alloc)?;
    put_packets(&mut capture, packets)?;
    Ok(capture)
}

/// Puts these frames.
fn put_frames(capture: &mut Vec<u8>, frames: &[Frame]) -> Result<(), NoMemory> {
    for (seconds, nanoseconds, output, len) in frames {
        let mut head = FRAME;
        head[5] = *output;
        put_packet(capture, [*seconds, *nanoseconds, *len, *len], &head)?;
    }
    Ok(())
}

/// A capture in the form that is written, of these frames.
pub fn capture_of(alloc: Global, frames: &[Frame]) -> Result<Vec<u8>, NoMemory> {
    let mut capture = HEADER.to_vec(alloc)?;
    put_frames(&mut capture, frames)?;
    Ok(capture)
}
