//! A capture that was read: the bytes of its file, and where the packets stand in them. No body is
//! copied.
ghost use Rattle.std.specs.Prelude.{◌≡◌, ◌<◌, ◌≤◌, ◌^◌, [], Ok, All, length, slice_get, IfSome};
ghost use Rattle.std.specs.List.{AllByRecursion};
ghost use Rattle.cq_base.specs.Limits.{longest_file};
ghost use Rattle.cq_pcap.specs.Captured.{file_length, longest_body, rows_from};
ghost use Rattle.cq_pcap.specs.Reading.{packets_of};
ghost use Rattle.cq_pcap.specs.Record.{Spells};
ghost use Rattle.cq_pcap.specs.Rows.{AreSpelt, packets_at};

use std::alloc::Global;
use std::marker::Model;

/// Where a captured packet stands in its file.
#[derive(Clone, Copy, Debug, PartialEq, Eq)]
pub struct PacketRow {
    /// The stamp, in nanoseconds.
    pub stamp: u64,
    /// The length of the packet on the wire, in bytes.
    pub original: u32,
    /// The place in the file of the first captured byte.
    pub at: u64,
    /// How many bytes were captured.
    pub len: u32,
}

/// A capture: a file of at most 2^28 bytes and the places of its packets. Contracts see it as its
/// packets, in order.
#[derive(Drop)]
pub struct Capture {
    bytes: Vec<u8>,
    rows: Vec<PacketRow>,
}

impl Model for Capture {
    ghost use Rattle.std.specs.Prelude.{List};
    ghost use Rattle.cq_pcap.specs.Captured.{Captured};
    ghost use Rattle.cq_pcap.specs.Rows.{AreRowsOf, packets_at};

    ghost Value = { List Captured };

    ghost view = { λ c. packets_at c.bytes.items c.rows.items };

    ghost invariant = { λ c. AreRowsOf c.bytes.items c.rows.items };
}

impl Capture {
    /// A capture without packets.
    pub fn empty(alloc: Global) -> Capture
        ensures { result ≡ [] }
    {
        Capture {
            bytes: Vec::new(alloc),
            rows: Vec::new(alloc),
        }
    }

    /// The capture of a file whose packets have these rows: that which `read_capture` gives for the bytes.
    pub fn of_rows(bytes: Vec<u8>, rows: Vec<PacketRow>) -> Capture
        requires { AreSpelt bytes.items rows.items }
        ensures packets { result ≡ packets_at bytes.items rows.items }
        ensures spelt { Spells bytes.items result }
        ensures read { packets_of bytes.items ≡ Ok result }
    {
        Capture { bytes, rows }
    }

    /// Where each packet stands, in order.
    pub fn rows(&self) -> &[PacketRow]
        ensures rows { result.now ≡ rows_from 24 self.now }
        ensures stamps { AllByRecursion (λ p. p.stamp < 2 ^ 63) self.now }
        ensures small { file_length self.now ≤ longest_file }
        ensures bodies { All (λ p. length p.body ≤ longest_body) self.now }
    {
        self.rows.as_slice()
    }

    /// The captured bytes of packet `k`, numbered from 0.
    pub fn body(&self, k: usize) -> &[u8]
        requires { k < length self.now }
        ensures { IfSome (slice_get self.now k) (λ p. result.now ≡ p.body) }
    {
        let row = self.rows[k];
        &self.bytes[row.at as usize..row.at as usize + row.len as usize]
    }
}
