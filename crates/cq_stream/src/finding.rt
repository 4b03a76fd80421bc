//! What a reader does with its order. Each of these waits for the other end of a ring.
ghost use Rattle.std.specs.Prelude.{◌≡◌, ◌≤◌, [], ◌∷◌, ◌++◌, length};
ghost use Rattle.cq_base.specs.Limits.{longest_file};
ghost use Rattle.rtrb.specs.Ring.{received, sent, SameConsumer, SameProducer};
ghost use Rattle.cq_pcap.specs.Rows.{AreRowsTo};
ghost use Rattle.cq_stream.specs.Stream.{HasEnded, HasObeyed, HasSent};

use crate::watch::Watch;
use crate::{Item, Order};
use cq_base::Port;
use cq_pcap::{FILE_HEADER, Form, PcapRefusal, form_of, row_at};
use rtrb::{Consumer, Producer, PushError};
use std::sync::Wait;
use std::thread::yield_now;

// Where the first record begins.
const FIRST: u64 = FILE_HEADER as u64;

/// Waits for the next order.
pub(crate) fn next_order<R: Wait>(rt: &R, orders: &mut Consumer<Order>) -> Order
    ensures ring { SameConsumer orders.old orders.new }
    ensures received { received orders.new ≡ received orders.old ++ result ∷ [] }
{
    'turns: for _ in rt.forever() {
        if let Ok(order) = orders.pop() {
            return order;
        }
        yield_now();
    }
    unreachable!()
}

/// Does what the order says. Told to send, it tells the watch first. The answer is the fault that it met, if it did.
#[tactic(auto, using(crate::proofs::Closing::sends_all))]
pub(crate) fn obey<R: Wait, W: Watch>(
    rt: &R,
    order: Order,
    items: &mut Producer<Item>,
    bytes: &[u8],
    input: Port,
    watch: &W,
) -> Option<PcapRefusal>
    requires small { length bytes.now ≤ longest_file }
    requires unsent { sent items.old ≡ [] }
    ensures ring { SameProducer items.old items.new }
    ensures obeyed { HasObeyed order bytes.now result (sent items.new) }
{
    match order {
        Order::Send => {
            watch.began(input);
            send_all(rt, items, bytes)
        }
        Order::Alone => None,
    }
}

fn send_all<R: Wait>(rt: &R, items: &mut Producer<Item>, bytes: &[u8]) -> Option<PcapRefusal>
    requires small { length bytes.now ≤ longest_file }
    ensures ring { SameProducer items.old items.new }
    ensures ended { HasEnded bytes.now result (sent items.old) (sent items.new) }
{
    let fault = send_rows(rt, items, bytes);
    push(rt, items, Item::Ended);
    fault
}

fn send_rows<R: Wait>(rt: &R, items: &mut Producer<Item>, bytes: &[u8]) -> Option<PcapRefusal>
    requires small { length bytes.now ≤ longest_file }
    ensures ring { SameProducer items.old items.new }
    ensures rows { HasSent bytes.now result (sent items.old) (sent items.new) }
{
    match form_of(bytes) {
        Ok(form) => send_records(rt, items, bytes, form),
        Err(refusal) => Some(refusal),
    }
}

#[tactic(auto, using(crate::proofs::Closing::send_steps))]
fn send_records<R: Wait>(
    rt: &R,
    items: &mut Producer<Item>,
    bytes: &[u8],
    form: Form,
) -> Option<PcapRefusal>
    requires small { length bytes.now ≤ longest_file }
    requires header { AreRowsTo form bytes.now 24 [] }
    ensures ring { SameProducer items.old items.new }
    ensures rows { HasSent bytes.now result (sent items.old) (sent items.new) }
{
    let mut at = FIRST;
    'records: loop {
        match row_at(bytes, form, at) {
            Ok(Some(row)) => {
                push(rt, items, Item::Row(row));
                at = row.at + u64::from(row.len);
            }
            Ok(None) => return None,
            Err(refusal) => return Some(refusal),
        }
    }
}

// Waits until the item is sent.
fn push<R: Wait>(rt: &R, items: &mut Producer<Item>, item: Item)
    ensures ring { SameProducer items.old items.new }
    ensures sent { sent items.new ≡ sent items.old ++ item ∷ [] }
{
    let mut item = item;
    'turns: for _ in rt.forever() {
        match items.push(item) {
            Ok(()) => return,
            Err(PushError::Full(back)) => item = back,
        }
        yield_now();
    }
    unreachable!()
}
