//! The reader of one capture.
ghost use Rattle.std.specs.Prelude.{◌≡◌, ◌≤◌, length};
ghost use Rattle.cq_base.specs.Limits.{longest_file};
ghost use Rattle.rtrb.specs.Ring.{received, sent};

use crate::finding::{next_order, obey};
use crate::watch::Watch;
use crate::{Done, DoneOf, Item, Order};
use cq_base::Port;
use rtrb::{Consumer, Producer};
use std::sync::Wait;

/// Decodes a capture and sends what it finds, once it is told to.
#[derive(Drop)]
pub struct Reader {
    pub(crate) bytes: Vec<u8>,
    pub(crate) items: Producer<Item>,
    pub(crate) orders: Consumer<Order>,
    ghost small: { length bytes.items ≤ longest_file },
    // It has sent nothing and was told nothing.
    ghost unsent: { length (sent items) ≡ 0 },
    ghost untold: { length (received orders) ≡ 0 },
}

impl Reader {
    ghost use Rattle.std.specs.Prelude.{◌≡◌};
    ghost use Rattle.cq_stream.specs.Stream.{IsDoneOf, promised};

    /// What this reader will leave, for the one who joins its thread.
    pub fn promise(&self) -> DoneOf
        ensures { promised result ≡ self.now }
    {
        DoneOf::of(self)
    }

    /// Waits for its one order. Told to send, it tells the watch, sends a row for each record up to the
    /// end of the bytes or their first fault, in order, and then `Ended`, and waits where the ring is
    /// full. Told to be alone, it sends nothing.
    pub fn run<R: Wait, W: Watch>(self, rt: &R, input: Port, watch: W) -> Done
        ensures { IsDoneOf self result }
    {
        let Reader {
            bytes,
            mut items,
            mut orders,
        } = self;
        let order = next_order(rt, &mut orders);
        let fault = obey(rt, order, &mut items, &bytes, input, &watch);
        Done {
            bytes,
            fault,
            items,
            orders,
        }
    }
}
