//! How captures are read, what an audit says of a run, and that workers change nothing. A law is the contract of a
//! function that does nothing.
ghost use Rattle.std.specs.Prelude.{◌≡◌, ◌<◌, ℕ, List, slice_index};
ghost use Rattle.cq_run.specs.Terms.{Reader, RunsAreAudited, WorkersChangeNothing};

/// There is a reader that goes by the grammar of captures and by its faults, and of a file of bytes any two such
/// readers make the same. So what holds for any reader holds for one that is pinned on all files.
#[tactic(auto, using(crate::proofs::Chain::from_front, crate::proofs::Chain::one_answer))]
pub fn captures_are_read_in_one_way()
    ensures a_reader { Reader }
    ensures one_answer { (r s : Reader) (bytes : List ℕ) → ((i : ℕ) → slice_index bytes i < 256) →
        r.read bytes ≡ s.read bytes }
{}

/// What `run` leaves over any contents gets a yes from `audit` of the same configuration, unless the run wrote the
/// configuration itself or a file that is too long for an audit. It does nothing: its contract is the claim.
pub fn runs_are_audited()
    ensures { (r : Reader) → RunsAreAudited r }
{}

/// Over two configurations that differ in their number of workers alone every command comes to the same: one plan, byte
/// for byte, meets what it aims at over both, and it is denied or refused over both for the same. It does nothing: its
/// contract is the claim.
#[tactic(auto, using(crate::proofs::AnyWorkers::workers_change_nothing))]
pub fn workers_change_nothing()
    ensures { (r : Reader) → WorkersChangeNothing r }
{}
