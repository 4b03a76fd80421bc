//! The caller's ends of the two rings.
ghost use Rattle.std.specs.Prelude.{◌+◌, ◌≤◌, length};
ghost use Rattle.rtrb.specs.Ring.{known_free, sent};

use crate::answer::answer;
use crate::{Done, Item, Order};
use cq_pcap::{Capture, PacketRow, PcapRefusal};
use rtrb::{Consumer, Producer};

/// Gives a reader its order and takes what it sends.
#[derive(Drop)]
pub struct Intake {
    pub(crate) items: Consumer<Item>,
    pub(crate) orders: Producer<Order>,
    // There is room for the one order.
    ghost slot: { 1 ≤ known_free orders + length (sent orders) },
    ghost once: { length (sent orders) ≤ 1 },
}

impl Intake {
    ghost use Rattle.std.specs.Prelude.{◌≡◌, [], ◌∷◌, ◌++◌, IfErr, IfNone, IfSome, Some};
    ghost use Rattle.cq_pcap.specs.Rows.{AreRowsUntil};
    ghost use Rattle.cq_stream.specs.declared.item.Order.TheVariants as order;
    ghost use Rattle.cq_stream.specs.Rings.{HasTold, SameReader, StandsAsBefore, taken, told, waiting};
    ghost use Rattle.cq_stream.specs.Stream.{AnswersOn, DidAsTold, IsLeftTo, SameLeft, all_sent, bytes_of, fault_found, items_of};

    /// Tells the reader to send. It has been told nothing before.
    pub fn send(&mut self)
        requires { told self.old ≡ [] }
        ensures { HasTold order.Send self.old self.new }
    {
        self.orders.push_reserved(Order::Send);
    }

    /// Tells the reader to send nothing. It has been told nothing before.
    pub fn alone(&mut self)
        requires { told self.old ≡ [] }
        ensures { HasTold order.Alone self.old self.new }
    {
        self.orders.push_reserved(Order::Alone);
    }

    /// The next item. `None` says that the ring held none at this step.
    pub fn take(&mut self) -> Option<Item>
        ensures some { IfSome result (λ item. taken self.new ≡ taken self.old ++ item ∷ []) }
        ensures none { IfNone result ((taken self.new ≡ taken self.old) × (waiting self.new ≡ [])) }
        ensures told { told self.new ≡ told self.old }
        ensures reader { SameReader self.old self.new }
    {
        self.items.pop().ok()
    }

    /// Brings both ends of both rings together, once the reader has left its own. Here they show that it
    /// was told one order and obeyed it: told to send, it has sent a row for each record and then
    /// `Ended`, taken or not. They show too that what was taken and what still waits is all that was sent.
    pub fn meet(&mut self, done: &mut Done)
        requires done { IsLeftTo self.old done.old }
        ensures obeyed { DidAsTold self.old done.old }
        ensures all { taken self.new ++ waiting self.new ≡ all_sent done.new }
        ensures intake { StandsAsBefore self.old self.new }
        ensures same { SameLeft done.old done.new }
        ensures left { IsLeftTo self.new done.new }
    {
        self.items.slots_beside(&mut done.items);
        done.orders.slots_beside(&mut self.orders);
    }

    /// What `read_capture` answers on the reader's bytes, where the last item taken was `Ended` and
    /// these are the rows taken. Each record ahead of the end, or of the first at fault, has one of them, there
    /// is no other, and they stand as the records do. A refusal is the fault that the reader found, and never want of
    /// memory.
    #[tactic(auto, using(crate::proofs::Closing::closes))]
    pub fn close(self, done: Done, rows: Vec<PacketRow>) -> Result<Capture, PcapRefusal>
        requires done { IsLeftTo self done }
        requires taken { taken self ≡ items_of rows.items }
        ensures answer { AnswersOn (bytes_of done) result }
        ensures obeyed { DidAsTold self done }
        ensures found { IfErr result (λ refusal. fault_found done ≡ Some refusal) }
        ensures rows { AreRowsUntil (bytes_of done) (fault_found done) rows.items }
    {
        let mut intake = self;
        let mut done = done;
        intake.meet(&mut done);
        let Done {
            bytes,
            fault,
            items: _,
            orders: _,
        } = done;
        answer(bytes, fault, rows)
    }
}
