//! The rule of the ledger's table, and the kinds of step on it. Each type here is a name for the proof alone.
ghost use Rattle.cq_ledger.specs.Plays.{Ruled, claim, look, proposal};
ghost use Rattle.cq_ledger.specs.Steps.{blank, joined, spent};

use crate::view::View;
use atomic_table::{Join, Play, Split, TableRule};
use cq_prefs::Offers;

/// What holds of the words and the views of the seats between any two steps.
pub struct Rule;

impl TableRule<(), View, Offers> for Rule {
    ghost holds = { Ruled };

    ghost first = { blank };
}

/// The step of a seat that claims an input.
pub struct Claim;

impl Play<(), View> for Claim {
    ghost then = { claim };
}

/// The step of a seat whose input proposes.
pub struct Proposal;

impl Play<(), View> for Proposal {
    ghost then = { proposal };
}

/// The step of a seat that reads a word and changes nothing.
pub struct Look;

impl Play<(), View> for Look {
    ghost then = { look };
}

/// The step that makes a new seat, which has done nothing, beside one that stays as it is.
pub struct Halves;

impl Split<View> for Halves {
    ghost left = { λ v. v };

    ghost right = { λ v. blank v.offers };
}

/// The step that gives one seat what two have done.
pub struct Both;

impl Join<View> for Both {
    ghost both = { joined };

    ghost spent = { spent };
}
