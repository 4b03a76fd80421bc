//! What a reader leaves, and the promise of it.
use crate::{Item, Order, Reader};
use cq_pcap::PcapRefusal;
use rtrb::{Consumer, Producer};
use std::snapshot::Snapshot;
use std::thread::Promise;

/// What a reader leaves: the bytes, their fault where it found one, and its ends of the two rings.
#[derive(Drop)]
pub struct Done {
    pub(crate) bytes: Vec<u8>,
    pub(crate) fault: Option<PcapRefusal>,
    pub(crate) items: Producer<Item>,
    pub(crate) orders: Consumer<Order>,
}

impl Done {
    ghost use Rattle.std.specs.Prelude.{◌≡◌, IsTrue};
    ghost use Rattle.cq_stream.specs.Stream.{bytes_of};

    /// Whether all that was sent is shown to the one who closes the intake. It always is, since what is
    /// left of a reader holds its end of the ring.
    pub fn shown(&self) -> bool
        ensures { IsTrue result }
    {
        true
    }

    /// The bytes of the reader that left this.
    pub fn bytes(self) -> Vec<u8>
        ensures { result.items ≡ bytes_of self }
    {
        let Done {
            bytes,
            fault: _,
            items: _,
            orders: _,
        } = self;
        bytes
    }
}

/// The promise that a thread makes which runs a reader: it returns what this reader leaves.
#[derive(Drop)]
pub struct DoneOf {
    pub(crate) reader: Snapshot<Reader>,
}

impl DoneOf {
    ghost use Rattle.std.specs.Prelude.{◌≡◌};
    ghost use Rattle.cq_stream.specs.Stream.{promised};

    /// The promise of what this reader leaves.
    pub(crate) fn of(reader: &Reader) -> DoneOf
        ensures { promised result ≡ reader.now }
    {
        DoneOf {
            reader: Snapshot::of(reader),
        }
    }
}

impl Promise<Done> for DoneOf {
    ghost use Rattle.cq_stream.specs.Stream.{IsDoneOf, promised};

    ghost kept_by = { λ p d. IsDoneOf (promised p) d };
}
