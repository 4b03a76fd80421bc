//! Why a run in parts writes what the run writes.
//!
//! `part` leaves the text of a state, and `resume` over it aims at the files and the report of `run`, at nothing else,
//! and is denied for nothing but what `run` is refused for. The laws speak of whole calls: of configurations, captures
//! and files, as the contract of the top call does. Nothing here runs.
#![tactic(auto)]

ghost use Rattle.cq_run.specs.Reader.{Reader};
ghost use Rattle.cq_parts.specs.Parts.{PartLeavesTheRest, PartsAreTheRun};

/// Let `part` stop a run after any number of slots below 2^63, and let the same configuration and captures be read
/// where `resume` is called, with the text that `part` left under STATE; what else has changed is no matter. Then
/// `resume` is refused for nothing before it runs; each plan that `run` could write over the contents from which `part`
/// began it could write, and no other; and where it is denied, that `run` is refused for the same. It does nothing: its
/// contract is the claim.
pub fn parts_are_the_run()
    ensures { (r : Reader) → PartsAreTheRun r }
{}

/// Where nothing but what `part` writes was written, and STATE is neither the name of the configuration nor one under
/// which a capture is read, the same configuration and captures are read, and STATE has the text that `part` left. It
/// does nothing: its contract is the claim.
#[tactic(auto, using(crate::proofs::Whole::part_leaves_the_rest))]
pub fn part_leaves_the_rest()
    ensures { (r : Reader) → PartLeavesTheRest r }
{}
