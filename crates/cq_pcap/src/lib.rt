//! Captures, both ways: which packets a file spells, and the file of packets.
//!
//! The format is the pcap file format, version 2.4, in its four forms. Its grammar stands in
//! `specs/Record.antt` as whole records put one after another, and `specs/Faults.antt` says what is wrong
//! with a file that is none. The reader and the writer are both stated by these, and the laws say that
//! each file has either packets or one first fault.
#![tactic(auto)]

mod capture;
mod form;
mod laws;
mod read;
mod write;

pub use capture::{Capture, PacketRow};
pub use form::Form;
pub use laws::{a_file_has_packets_or_a_fault, reading_is_by_the_grammar, written_is_spelt};
pub use read::{FILE_HEADER, PcapRefusal, RECORD_HEADER, form_of, read_capture, row_at};
pub use write::{OutPacket, begin_capture, capture_bytes, put_packet};
