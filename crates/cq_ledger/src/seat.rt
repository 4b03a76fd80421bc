//! What one worker has done on a ledger.
ghost use Rattle.std.specs.Prelude.{◌≡◌, ◌<◌, ◌↔◌, IsTrue, IfSome, option_map, ℕ, []};
ghost use Rattle.cq_prefs.specs.Orders.{Orders, ports};
ghost use Rattle.cq_ledger.specs.Plays.{IsFew};
ghost use Rattle.cq_ledger.specs.Steps.{blank};
ghost use Rattle.cq_ledger.specs.Views.{HasClaimed};

use crate::answer::Hand;
use crate::view::View;
use crate::words::has_bit;
use atomic_table::Seat;
use cq_base::Port;
use std::marker::Model;

/// One worker's part in a ledger: the inputs that it has claimed, its hand, which has no input or one, and how
/// many proposals it made. Contracts see which ledger it is of, and its view.
#[derive(Drop)]
pub struct LedgerSeat {
    pub(crate) seat: Seat<(), View>,
    pub(crate) claims: u64,
    pub(crate) hand: Hand,
    pub(crate) made: u64,
}

impl Model for LedgerSeat {
    ghost use Rattle.cq_ledger.specs.Seats.{SeatState};

    ghost Value = { SeatState };

    ghost use Rattle.cq_ledger.specs.SeatFields.{IsSeat};

    ghost view = { λ a. record { table = a.seat.table_id; view = a.seat.me.0 } };

    ghost invariant = { λ a. IsSeat a.seat.me a.claims a.hand a.made };
}

impl LedgerSeat {
    /// A seat that has claimed and made nothing.
    pub(crate) fn blank(seat: Seat<(), View>) -> LedgerSeat
        requires { (o : Orders) × (seat.me ≡ (blank o, [])) }
        ensures table { result.table ≡ seat.table_id }
        ensures view { result.view ≡ seat.me.0 }
    {
        LedgerSeat {
            seat,
            claims: 0,
            hand: None,
            made: 0,
        }
    }

    /// Whether the seat has claimed an input.
    pub fn claimed(&self, input: Port) -> bool
        ensures { IsTrue result ↔ HasClaimed self.now.view input }
    {
        has_bit(self.claims, input)
    }

    /// The input in the seat's hand, if there is one.
    pub fn hand(&self) -> Option<Port>
        ensures input { result ≡ option_map (λ (h : ℕ × ℕ). h.0) self.now.view.hand }
        ensures port { IfSome result (λ input. input < ports self.now.view.offers) }
    {
        match self.hand {
            Some((input, _)) => Some(input),
            None => None,
        }
    }

    /// How many proposals the seat made: never more than the number of ports squared.
    pub fn made(&self) -> u64
        ensures made { result ≡ self.now.view.made }
        ensures few { IsFew self.now.view }
    {
        self.made
    }
}
