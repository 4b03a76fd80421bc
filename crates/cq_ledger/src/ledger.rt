//! The shared words, and the calls on them.
ghost use Rattle.std.specs.Prelude.{◌≡◌, ℕ, ◌+◌, ◌<◌, Some, None, IsSome, IsTrue, IsFalse, IfOk, option_map};
ghost use Rattle.cq_prefs.specs.Orders.{ports};
ghost use Rattle.cq_prefs.specs.Pairing.{IsInputBest, proposals};
ghost use Rattle.cq_ledger.specs.Plays.{IsFew};
ghost use Rattle.cq_ledger.specs.Seats.{HasClaimedAll, IsProposed, IsSeatOf};
ghost use Rattle.cq_ledger.specs.Steps.{blank, claim_refused, claim_taken, joined};
ghost use Rattle.cq_ledger.specs.Views.{HasClaimed, HasSeen};

use crate::answer::{answered, hand_from, hand_next};
use crate::closed::Closed;
use crate::plays::{Both, Claim, Halves, Look, Proposal, Rule};
use crate::reading::read_matching;
use crate::seat::LedgerSeat;
use crate::view::View;
use crate::words::{bit_of, first_words, has_bit};
use atomic_table::Table;
use cq_base::{NoMemory, Port};
use cq_prefs::{Offers, Outcome, Phase};
use std::alloc::Global;
use std::marker::Model;

/// One word of claims and one word per output, shared by any number of seats. Contracts see which ledger it is,
/// and its offers.
#[derive(Drop)]
pub struct Ledger {
    table: Table<(), View, Offers, Rule, Global>,
    offers: Offers,
}

impl Model for Ledger {
    ghost use Rattle.std.specs.Prelude.{◌≡◌, suc};
    ghost use Rattle.cq_prefs.specs.Orders.{ports};
    ghost use Rattle.cq_ledger.specs.Seats.{LedgerState};

    ghost Value = { LedgerState };

    ghost view = { λ a. record { table = a.table.shared.table_id; offers = a.offers } };

    ghost invariant = { λ a. (a.table.shared.key ≡ a.offers) × (a.table.shared.table_id.slots ≡ 0)
        × (a.table.shared.table_id.words ≡ suc (ports a.offers)) };
}

impl Ledger {
    /// A ledger over these offers, on which nothing is claimed, and its first seat. It keeps a copy of the
    /// offers. The error is want of memory.
    pub fn start(alloc: Global, offers: &Offers) -> Result<(Ledger, LedgerSeat), NoMemory>
        ensures offers { IfOk result (λ r. r.0.offers ≡ offers.now) }
        ensures seat { IfOk result (λ r. IsSeatOf r.0 r.1) }
        ensures blank { IfOk result (λ r. r.1.view ≡ blank offers.now) }
    {
        let ports = offers.ports();
        let words = first_words(ports);
        let copy = offers.copy(alloc)?;
        let (table, seat) = Table::of_words(alloc, &words[..ports as usize + 1], &copy)?;
        let ledger = Ledger {
            table,
            offers: copy,
        };
        Ok((ledger, LedgerSeat::blank(seat)))
    }

    /// Claims an input for a seat whose hand is empty: one atomic step on the word of claims. The answer is true
    /// exactly where the step found the input unclaimed. Then the seat has claimed it, and it is in the seat's
    /// hand at its first place, or the hand is empty where its order is. After false the seat has seen that the
    /// input is claimed, and its claims, its hand and its count are as before. The first input that a seat tries
    /// to claim is kept in either case.
    pub fn claim(&self, seat: &mut LedgerSeat, input: Port) -> bool
        requires seat { IsSeatOf self.now seat.old }
        requires hand { seat.old.view.hand ≡ None }
        requires input { input < ports self.now.offers }
        ensures seat { IsSeatOf self.now seat.new }
        ensures taken { IsTrue result → seat.new.view ≡ claim_taken seat.old.view input }
        ensures refused { IsFalse result → seat.new.view ≡ claim_refused seat.old.view input }
        ensures claimed { HasClaimed seat.old.view input → IsFalse result }
        ensures seen { HasSeen seat.old.view input → IsFalse result }
    {
        // Its contract tells that there are 64 ports at most.
        let _ports = self.offers.ports();
        let bit = bit_of(input);
        let found = self.table.shared.fetch_or::<Claim>(&mut seat.seat, 0, bit);
        if has_bit(found, input) {
            return false;
        }
        seat.claims |= bit;
        seat.hand = hand_from(&self.offers, input, 0);
        true
    }

    /// The input in the seat's hand proposes to the next output of its order: one atomic step on that output's
    /// word. Held: nobody had proposed to that output, so its word was the number of ports, and the hand is empty
    /// then. Displaced: another input stood there at a greater position, and the hand takes it up, behind this output
    /// in its order. Rejected: a lesser position stood there, and the hand keeps its input, which moves on by one
    /// place. Each comes in that case alone. A hand whose input has no output left is empty. The seat made one
    /// proposal more, and never more than the number of ports squared. Its view keeps the input that proposed and
    /// the answer, also where the hand ends empty.
    pub fn propose(&self, seat: &mut LedgerSeat) -> Outcome
        requires seat { IsSeatOf self.now seat.old }
        requires hand { IsSome seat.old.view.hand }
        ensures seat { IsSeatOf self.now seat.new }
        ensures proposed { (i p : ℕ) → seat.old.view.hand ≡ Some (i, p)
            → IsProposed seat.old.view i p result seat.new.view }
        ensures made { seat.new.view.made ≡ seat.old.view.made + 1 }
        ensures few { IsFew seat.new.view }
        ensures told { seat.new.view.told ≡ option_map (λ h. (h.0, result)) seat.old.view.hand }
    {
        let Some((input, place)) = seat.hand else {
            unreachable!();
        };
        let asked = self.offers.asked(input, place);
        let found = self.table.shared.fetch_min::<Proposal>(
            &mut seat.seat,
            asked.output as usize + 1,
            asked.position as u64,
        );
        let answer = answered(&self.offers, input, place, asked, found);
        seat.hand = hand_next(&self.offers, input, place, asked.output, answer);
        seat.made += 1;
        answer
    }

    /// A new seat, which has claimed and made nothing. The old one is as before.
    #[tactic(auto, using(crate::proofs::Allowed::seat_steps))]
    pub fn split(&self, seat: &mut LedgerSeat) -> LedgerSeat
        requires seat { IsSeatOf self.now seat.old }
        ensures same { seat.new ≡ seat.old }
        ensures seat { IsSeatOf self.now result }
        ensures blank { result.view ≡ blank self.now.offers }
    {
        LedgerSeat::blank(self.table.shared.split_seat::<Halves>(&mut seat.seat))
    }

    /// Joins another seat to this one, which then has what both have claimed, made and seen. Both hands are
    /// empty.
    #[tactic(auto, using(crate::proofs::Allowed::seat_steps))]
    pub fn join(&self, into: &mut LedgerSeat, other: LedgerSeat)
        requires seat { IsSeatOf self.now into.old }
        requires other { IsSeatOf self.now other }
        requires hand { into.old.view.hand ≡ None }
        requires other_hand { other.view.hand ≡ None }
        ensures seat { IsSeatOf self.now into.new }
        ensures joined { into.new.view ≡ joined into.old.view other.view }
    {
        let LedgerSeat {
            seat,
            claims,
            hand: _,
            made,
        } = other;
        // Its contract tells that there are 64 ports at most.
        let _ports = self.offers.ports();
        self.table.shared.join_seat::<Both>(&mut into.seat, seat);
        // A join tells nothing of the table. A look at it tells that the sum is in range.
        self.table.shared.load::<Look>(&mut into.seat, 0);
        into.claims |= claims;
        into.made += made;
    }

    /// Closes the ledger with a seat that has nothing in its hand and has claimed all ports. Its phase is the
    /// matching that is best for the inputs, after as many proposals as that matching has: those that the seat
    /// made.
    pub fn close(self, seat: LedgerSeat) -> Closed
        requires seat { IsSeatOf self seat }
        requires claimed { HasClaimedAll seat }
        requires hand { seat.view.hand ≡ None }
        ensures best { IsInputBest self.offers result.matching }
        ensures proposals { result.proposals ≡ proposals self.offers result.matching }
        ensures made { result.proposals ≡ seat.view.made }
    {
        let Ledger { table, offers } = self;
        let LedgerSeat {
            seat,
            claims: _,
            hand: _,
            made,
        } = seat;
        let closed = table.close_with(seat);
        let matching = read_matching(&offers, &closed);
        closed.free();
        Closed {
            phase: Phase {
                matching,
                proposals: made,
            },
        }
    }
}
