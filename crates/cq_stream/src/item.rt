//! What goes through the two rings.
use cq_pcap::PacketRow;

/// What a reader sends: the row of each record, and then that there are no more.
#[derive(Clone, Copy, Debug, PartialEq, Eq)]
pub enum Item {
    /// The row of the next record.
    Row(PacketRow),
    /// The bytes end here, or have a fault here.
    Ended,
}

/// What a reader is told to do, once.
#[derive(Clone, Copy, Debug, PartialEq, Eq)]
pub enum Order {
    /// Send what the bytes hold.
    Send,
    /// Send nothing.
    Alone,
}
