//! The captures of the inputs.
ghost use Rattle.std.specs.Prelude.{◌≡◌, ◌*◌, ◌<◌, ◌≤◌, length, map, IfOk};
ghost use Rattle.std.specs.Int.{IsInRange};
ghost use Rattle.std.specs.List.{range_with_len};
ghost use Rattle.cq_base.specs.Limits.{most_ports, most_soak_slots};
ghost use Rattle.cq_gen.specs.Packets.{packets_to};

use crate::packets::file_to;
use cq_base::{NoMemory, Port};
use cq_pcap::{Capture, PcapRefusal, read_capture};
use std::alloc::Global;

// The capture of an input. Its packets are written and read again, as a capture keeps the bytes of its
// file.
#[tactic(auto, using(crate::proofs::Small::file_read))]
fn capture_at(
    alloc: Global,
    words: &[u32],
    ports: Port,
    slots: u32,
    input: Port,
) -> Result<Capture, NoMemory>
    requires ports { IsInRange 1 most_ports ports }
    requires slots { slots ≤ most_soak_slots }
    requires input { input < ports }
    requires words { length words.now ≡ slots * ports }
    ensures { IfOk result (λ capture. capture ≡ packets_to words.now ports slots input) }
{
    let bytes = file_to(alloc, words, ports, slots, input)?;
    match read_capture(alloc, bytes) {
        Ok(capture) => Ok(capture),
        Err(refusal) => match refusal {
            PcapRefusal::NoMemory => Err(NoMemory),
            _ => unreachable!(),
        },
    }
}

/// The captures of all inputs, in order, where the words are those of all slots. The error is want of
/// memory.
#[tactic(auto, using(cq_base::proofs::Each::counted_more))]
pub fn captures_of(
    alloc: Global,
    words: &[u32],
    ports: Port,
    slots: u32,
) -> Result<Vec<Capture>, NoMemory>
    requires ports { IsInRange 1 most_ports ports }
    requires slots { slots ≤ most_soak_slots }
    requires words { length words.now ≡ slots * ports }
    ensures { IfOk result (λ captures. captures.items ≡ map (packets_to words.now ports slots)
        (range_with_len 0 ports)) }
{
    let mut captures = Vec::with_capacity(alloc, ports as usize)?;
    'inputs: for input in 0..ports {
        let capture = capture_at(alloc, words, ports, slots, input)?;
        captures.push(capture)?;
    }
    Ok(captures)
}
