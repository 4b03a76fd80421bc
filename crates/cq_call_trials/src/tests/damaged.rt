//! Damaged captures: each is refused by number and place, and nothing is written.
use cq_base::NoMemory;
use cq_trial_kit::HEADER;
use cq_trials::{Call, Packet, put_packets, touches_nothing};
use std::alloc::Global;
use std::thread::Threads;

/// A capture: the first bytes in place of those of a header, the packets, what follows them, how many of
/// all these bytes are there, and what is said of it.
type Damage = (
    &'static [u8],
    &'static [Packet],
    &'static [u8],
    usize,
    &'static str,
);

const PACKET: &[Packet] = &[(0, 0, 60, 60)];

const LONGEST_AND_ONE: &[Packet] = &[(0, 0, 262_145, 262_145)];

/// A record header that states one captured byte.
const ONE_BYTE: [u8; 16] = [0, 0, 0, 0, 0, 0, 0, 0, 1, 0, 0, 0, 60, 0, 0, 0];

/// A record header that states 2^32 - 1 captured bytes.
const ALL_BYTES: [u8; 16] = [0, 0, 0, 0, 0, 0, 0, 0, 255, 255, 255, 255, 60, 0, 0, 0];

/// The header that is written, of link type 113.
const COOKED: [u8; 24] = [
    0x4d, 0x3c, 0xb2, 0xa1, 2, 0, 4, 0, 0, 0, 0, 0, 0, 0, 0, 0, 0, 0, 4, 0, 113, 0, 0, 0,
];

/// The same, of version 2.3.
const COOKED_2_3: [u8; 24] = [
    0x4d, 0x3c, 0xb2, 0xa1, 2, 0, 3, 0, 0, 0, 0, 0, 0, 0, 0, 0, 0, 0, 4, 0, 113, 0, 0, 0,
];

/// Shorter than a header; no magic; another version; another link type; and records that are cut, or too
/// long.
const DAMAGES: &[Damage] = &[
    (&[], &[], &[], 0, "capture of input 0: 1\n"),
    (&[], &[], &[], 23, "capture of input 0: 1\n"),
    (
        &[0x34, 0xcd, 0xb2, 0xa1],
        &[],
        &[],
        24,
        "capture of input 0: 2\n",
    ),
    (
        &[0x0a, 0x0d, 0x0d, 0x0a],
        &[],
        &[],
        24,
        "capture of input 0: 2\n",
    ),
    (&[0x1f, 0x8b, 8, 8], &[], &[], 24, "capture of input 0: 2\n"),
    (&[0; 24], &[], &[], 24, "capture of input 0: 2\n"),
    (
        &[0x4d, 0x3c, 0xb2, 0xa1, 2, 0, 3],
        &[],
        &[],
        24,
        "capture of input 0: 3\n",
    ),
    (
        &[0x4d, 0x3c, 0xb2, 0xa1, 4, 0, 2],
        &[],
        &[],
        24,
        "capture of input 0: 3\n",
    ),
    (
        &[0xa1, 0xb2, 0x3c, 0x4d],
        &[],
        &[],
        24,
        "capture of input 0: 3\n",
    ),
    (&COOKED_2_3, &[], &[], 24, "capture of input 0: 3\n"),
    (&COOKED, &[], &[], 24, "capture of input 0: 4\n"),
    (&[], &[], &[0; 15], 39, "capture of input 0: 5 at 24\n"),
    (&[], PACKET, &[0], 101, "capture of input 0: 5 at 100\n"),
    (&[], PACKET, &[], 34, "capture of input 0: 5 at 24\n"),
    (&[], PACKET, &[], 99, "capture of input 0: 6 at 24\n"),
    (
        &[],
        PACKET,
        &ONE_BYTE,
        116,
        "capture of input 0: 6 at 100\n",
    ),
    (
        &[],
        LONGEST_AND_ONE,
        &[],
        262_185,
        "capture of input 0: 7 at 24, length 262145\n",
    ),
    (
        &[],
        LONGEST_AND_ONE,
        &[],
        99,
        "capture of input 0: 7 at 24, length 262145\n",
    ),
    (
        &[],
        &[],
        &ALL_BYTES,
        40,
        "capture of input 0: 7 at 24, length 4294967295\n",
    ),
    (
        &[],
        PACKET,
        &ALL_BYTES,
        116,
        "capture of input 0: 7 at 100, length 4294967295\n",
    ),
];

/// Puts the header with those first bytes and what follows it, and cuts the capture.
fn put_capture(input: &mut Vec<u8>, damage: &Damage) -> Result<(), NoMemory> {
    let (first, packets, more, len, _) = damage;
    input.extend_from_slice(first)?;
    input.extend_from_slice(&HEADER[first.len().min(HEADER.len())..])?;
    put_packets(input, packets)?;
    input.extend_from_slice(more)?;
    input.truncate(*len);
    Ok(())
}

/// Whether the capture is refused with the line.
fn is_told<R: Threads + Sync>(rt: &R, alloc: Global, input: &[u8], line: &str) -> bool {
    let call: Call = (&["pass", "a", "b"], (3, "", line));
    touches_nothing(rt, alloc, call, &[("a", input)])
}

fn is_refused<R: Threads + Sync>(rt: &R, alloc: Global, damage: &Damage) -> bool {
    let mut input = Vec::new(alloc);
    match put_capture(&mut input, damage) {
        Ok(()) => is_told(rt, alloc, &input, damage.4),
        Err(_) => false,
    }
}

#[test]
fn a_damaged_capture_is_refused_by_number_and_place(rt: HostRuntime) {
    for damage in DAMAGES {
        assert!(rt; is_refused(&rt, rt.alloc(), damage));
    }
}
