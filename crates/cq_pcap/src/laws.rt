//! Laws of the grammar of captures.
ghost use Rattle.std.specs.Prelude.{◌≡◌, ◌⊎◌, ◌<◌, ℕ, List, Ok, Err, map, slice_index};
ghost use Rattle.std.specs.List.{AllByRecursion};
ghost use Rattle.cq_pcap.specs.Captured.{Captured};
ghost use Rattle.cq_pcap.specs.Faults.{IsFaulty};
ghost use Rattle.cq_pcap.specs.Reading.{packets_of};
ghost use Rattle.cq_pcap.specs.Record.{Spells};
ghost use Rattle.cq_pcap.specs.Written.{IsWritable, read_again, written};
ghost use Rattle.cq_pcap.specs.declared.read.PcapRefusal.{PcapRefusal};
ghost use Rattle.cq_pcap.specs.declared.write.OutPacket.{OutPacket};

/// Each file of bytes is a capture of one list of packets, or has one first fault, and never both.
#[tactic(auto, using(crate::proofs::ReadIsSpelt::spelt_or_faulty, crate::proofs::SpeltIsRead::fault_is_read))]
pub fn a_file_has_packets_or_a_fault()
    ensures either { (bytes : List ℕ) → ((i : ℕ) → slice_index bytes i < 256)
        → ((packets : List Captured) × Spells bytes packets) ⊎ ((fault : PcapRefusal) × IsFaulty bytes fault) }
    ensures never_both { (bytes : List ℕ) (packets : List Captured) (fault : PcapRefusal)
        → Spells bytes packets → ¬ IsFaulty bytes fault }
    ensures one_list { (bytes : List ℕ) (packets others : List Captured)
        → Spells bytes packets → Spells bytes others → packets ≡ others }
    ensures one_fault { (bytes : List ℕ) (fault other : PcapRefusal)
        → IsFaulty bytes fault → IsFaulty bytes other → fault ≡ other }
{}

/// The function that reads a file from its front answers by the grammar and by the faults.
pub fn reading_is_by_the_grammar()
    ensures spelt_is_read { (bytes : List ℕ) (packets : List Captured)
        → Spells bytes packets → packets_of bytes ≡ Ok packets }
    ensures faulty_is_read { (bytes : List ℕ) (fault : PcapRefusal)
        → IsFaulty bytes fault → packets_of bytes ≡ Err fault }
    ensures read_is_spelt { (bytes : List ℕ) (packets : List Captured)
        → ((i : ℕ) → slice_index bytes i < 256)
        → packets_of bytes ≡ Ok packets → Spells bytes packets }
    ensures read_is_faulty { (bytes : List ℕ) (fault : PcapRefusal)
        → ((i : ℕ) → slice_index bytes i < 256)
        → packets_of bytes ≡ Err fault → IsFaulty bytes fault }
{}

/// Where the stamps of packets are below 2^32 seconds, reading what is written of them gives their stamps,
/// original lengths and bodies back.
#[tactic(auto, using(crate::proofs::WrittenIsSpelt::written_is_spelt))]
pub fn written_is_spelt()
    ensures { (packets : List OutPacket)
        → AllByRecursion IsWritable packets
        → Spells (written packets) (map read_again packets) }
{}
