//! Who offers what to whom in a switch, and who is matched with whom.
//!
//! In each phase some inputs send a cell to some outputs. Which ones is said by a matching, and all that
//! is claimed of the scheduling rests on two words: a matching that is stable, and the stable matching that is
//! best for the inputs. Both are defined here over sets of pairs, with no word of how a matching is found, so
//! that every way to find one is held to the same definition.
#![tactic(auto)]

mod best_law;
mod by_key;
mod by_place;
mod laws;
mod matching;
mod offers;
mod outcome;
mod preference;
mod proposal_laws;
mod renewal;

pub use best_law::best_is_input_best;
pub use laws::{one_is_input_best, one_order_is_by_first_cells, orders_are_by_first_cells};
pub use matching::Matching;
pub use offers::{Ask, Offers};
pub use outcome::{Outcome, Phase};
pub use proposal_laws::{no_input_passes, proposals_are_few, quiescent_is_input_best};
