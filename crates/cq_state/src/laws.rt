//! What the text of a state says.
ghost use Rattle.cq_state.specs.StateText.{IsStateExact};
ghost use Rattle.cq_state.specs.OneText.{HaveOneText};

/// The text of a state is read in one way at most, or refused at one line at most, and never both. It does nothing: its
/// contract is the claim.
#[tactic(auto, using(crate::proofs::OneReading::state_is_exact))]
pub fn state_texts_are_exact()
    ensures { IsStateExact }
{}

/// The text of a state in range is allowed, two such states have different texts, and each text that is
/// allowed is that of such a state. It does nothing: its contract is the claim.
#[tactic(auto, using(crate::proofs::OneText::have_one_text))]
pub fn states_have_one_text()
    ensures { HaveOneText }
{}
