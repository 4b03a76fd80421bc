//! Why a run that was stopped can be taken up again.
//!
//! What a run leaves after any number of slots is told by a state, and that state is a sound one of its switch: it
//! tells of the arrivals that were admitted, in order, and comes to what was left. All laws speak of captures such as
//! files of at most 2^28 bytes hold. Nothing here runs.
#![tactic(auto)]

ghost use Rattle.cq_stopped.specs.Read.{ReadRunsGoOn, StoppedRunsAreRead};
ghost use Rattle.cq_stopped.specs.Stopped.{StoppedRunsAreSound};

/// A run of a configured switch that is stopped after any number of slots below 2^63, which meet no tag fault, leaves
/// what its state comes to, and that state is in range, of the switch's shape and sound. So a state that such a run
/// wrote is never refused, and what is read of it is what was left. It does nothing: its contract is the claim.
pub fn stopped_runs_are_sound()
    ensures { StoppedRunsAreSound }
{}

/// So the text of that state is read as what was left, and as nothing else, and is refused for nothing but want of
/// memory. It does nothing: its contract is the claim.
pub fn stopped_runs_are_read()
    ensures { StoppedRunsAreRead }
{}

/// So a run that is stopped after any number of slots below 2^63, written, read and continued is the run, over captures
/// such as files hold: it keeps the same, or both meet the same tag fault; and each comes to its end where the other
/// does. It does nothing: its contract is the claim.
pub fn read_runs_go_on()
    ensures { ReadRunsGoOn }
{}
