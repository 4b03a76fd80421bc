//! The packets that come to an input.
ghost use Rattle.std.specs.Prelude.{◌≡◌, ◌++◌, ◌*◌, ◌<◌, ◌≤◌, length, map, IfOk, OnOk};
ghost use Rattle.std.specs.Int.{IsInRange};
ghost use Rattle.cq_base.specs.Limits.{most_ports, most_soak_slots};
ghost use Rattle.cq_gen.specs.Packets.{frame_of, output_address, packet_of, packets_to, to_write};
ghost use Rattle.cq_pcap.specs.Written.{record_of, written};

use cq_base::{NoMemory, Port};
use cq_pcap::{FILE_HEADER, RECORD_HEADER, begin_capture, put_packet};
use cq_route::DEFAULT_SLOT_NS;
use std::alloc::Global;

// How many bytes a frame has.
const FRAME: usize = 60;

/// The address of an output.
pub fn output_address(output: u8) -> [u8; 6]
    ensures { result ≡ output_address output }
{
    [0x02, 0, 0, 0, 0, output]
}

// The frame of a packet.
#[tactic(auto, unfolding(crate::specs::Packets::frame_of))]
fn frame_of(output: u8, input: u8, priority: u8) -> [u8; FRAME]
    requires { priority < 8 }
    ensures { result ≡ frame_of output input priority }
{
    let to = output_address(output);
    let tag = priority * 32;
    [
        to[0], to[1], to[2], to[3], to[4], to[5], 0x02, 0, 0, 0, 1, input, //
        0x81, 0, tag, 0, 0x88, 0xb5, 0, 0, 0, 0, 0, 0, //
        0, 0, 0, 0, 0, 0, 0, 0, 0, 0, 0, 0, //
        0, 0, 0, 0, 0, 0, 0, 0, 0, 0, 0, 0, //
        0, 0, 0, 0, 0, 0, 0, 0, 0, 0, 0, 0,
    ]
}

// Puts the packet that a word makes behind the bytes of a capture.
#[tactic(auto, unfolding(crate::specs::Packets::packet_of))]
fn put_made(
    out: &mut Vec<u8>,
    ports: Port,
    slot: u32,
    input: Port,
    word: u32,
) -> Result<(), NoMemory>
    requires ports { IsInRange 1 most_ports ports }
    requires input { input < ports }
    ensures { OnOk result (out.new.items ≡ out.old.items ++ record_of (to_write (packet_of ports slot input word))) }
{
    let output = word % u32::from(ports);
    let priority = word >> 29;
    let frame = frame_of(output as u8, input as u8, priority as u8);
    let stamp = u128::from(slot) * u128::from(DEFAULT_SLOT_NS);
    put_packet(out, stamp, FRAME as u32, &frame)
}

/// The bytes of the capture of the packets that come to the input, where the words are those of all slots. The error is
/// want of memory.
#[tactic(auto, unfolding(crate::specs::Packets::packets_to))]
pub fn file_to(
    alloc: Global,
    words: &[u32],
    ports: Port,
    slots: u32,
    input: Port,
) -> Result<Vec<u8>, NoMemory>
    requires ports { IsInRange 1 most_ports ports }
    requires slots { slots ≤ most_soak_slots }
    requires input { input < ports }
    requires words { length words.now ≡ slots * ports }
    ensures { IfOk result (λ bytes. bytes.items ≡ written (map to_write (packets_to words.now ports slots input))) }
{
    let size = FILE_HEADER + slots as usize * (RECORD_HEADER + FRAME);
    let mut bytes = begin_capture(alloc, size)?;
    'slots: for slot in 0..slots {
        let word = words[slot as usize * ports as usize + input as usize];
        put_made(&mut bytes, ports, slot, input, word)?;
    }
    Ok(bytes)
}
