//! The matching that the words of a closed table show.
ghost use Rattle.std.specs.Prelude.{◌≡◌, suc};
ghost use Rattle.std.specs.Slots.{slots_items, slots_len, IsFull};
ghost use Rattle.cq_prefs.specs.Orders.{ports};
ghost use Rattle.cq_prefs.specs.Proposals.{State, IsSound, matching_of};
ghost use Rattle.cq_ledger.specs.Reading.{Shows};

use atomic_table::Closed;
use cq_prefs::{Matching, Offers};
use std::alloc::Global;

/// The pairs of each output and the input that it holds.
pub(crate) fn read_matching(offers: &Offers, closed: &Closed<(), Global>) -> Matching
    requires full { IsFull closed.now.words }
    requires count { slots_len closed.now.words ≡ suc (ports offers.now) }
    requires shown { (s : State) × IsSound offers.now s × Shows offers.now (slots_items closed.now.words) s }
    ensures { (s : State) → IsSound offers.now s → Shows offers.now (slots_items closed.now.words) s → result
        ≡ matching_of offers.now s }
{
    let ports = offers.ports();
    let mut matching = Matching::none(ports);
    for output in 0..ports {
        let word = closed.word(output as usize + 1);
        if word != ports as u64 {
            let input = offers.inputs_of(output)[word as usize];
            matching.join(input, output);
        }
    }
    matching
}
