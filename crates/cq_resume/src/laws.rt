//! Runs in parts are runs, and of each text, stop and state there is one answer at most.
ghost use Rattle.cq_resume.specs.Terms.{IsOneParted, IsOneResumed, IsReadExact, PartsJoin, Switch};

/// A text is read as one thing at most, what one sound state comes to, and refused for one thing at most, and never
/// both; want of memory is no such thing. It does nothing: its contract is the claim.
#[tactic(auto, using(crate::proofs::OneAnswer::read_exact))]
pub fn states_are_read_in_one_way()
    ensures { (w : Switch) → IsReadExact w }
{}

/// A run that is stopped after any number of slots below 2^63 which meet no tag fault, and goes on from its state, is
/// the run: it keeps the same, or both meet the same tag fault; and each comes to its end where the other does. It does
/// nothing: its contract is the claim.
#[tactic(auto, using(crate::proofs::Joining::parts_join))]
pub fn parts_join()
    ensures { PartsJoin }
{}

/// After any number of slots a run stands in one state at most, with one thing kept, or met one tag fault at most, and
/// never both. It does nothing: its contract is the claim.
#[tactic(auto, using(crate::proofs::Joining::one_part))]
pub fn one_parted_run()
    ensures { IsOneParted }
{}

/// From any state that was taken up there is one run at most: it keeps one thing to its end, or meets one tag fault,
/// and never both. It does nothing: its contract is the claim.
#[tactic(auto, using(crate::proofs::Joining::one_resumed))]
pub fn one_resumed_run()
    ensures { IsOneResumed }
{}
