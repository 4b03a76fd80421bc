//! What a log says.
ghost use Rattle.std.specs.Prelude.{◌≡◌, ℕ, List, Option};
ghost use Rattle.cq_audit.specs.Terms.{Arrival, Cell, Transfer, Setup, Marked, Machine, IsStable, Fabric, LimitedFabricRun, LimitedRecord, slots_in, transfers_of_run, IsAuditExact, AreInOrder, IsLog, IsLogExact, IsPhaseExact, StableRun, IsTraceExact};

/// A log is read in one way at most, or refused at one line at most, and never both. Each of its lines is behind all
/// before it. It does nothing: its contract is the claim.
#[tactic(auto, using(crate::proofs::LogLines::log_is_exact))]
pub fn logs_are_exact()
    ensures exact { (ports : ℕ) → IsLogExact ports }
    ensures in_order { (ports : ℕ) (note : List Transfer) (log : List ℕ) →
        IsLog ports note log → AreInOrder ports note }
{}

/// Two texts that differ do so in one line first, and equal ones in none. It does nothing: its contract is the
/// claim.
#[tactic(auto, using(crate::proofs::OneDifference::trace_is_exact))]
pub fn traces_are_exact()
    ensures { IsTraceExact }
{}

/// The lines of a phase are the transfers of one stable matching at most, or have one fault at most, and never both. It
/// does nothing: its contract is the claim.
#[tactic(auto, using(crate::proofs::PhaseExact::phase_is_exact))]
pub fn phases_are_exact()
    ensures { IsPhaseExact }
{}

/// Of the stable runs over the same slots from one state, at most one has these transfers: in each phase they tell the
/// matching. So it is with whole runs, which end by themselves, and a replay has no choice. It does nothing: its
/// contract is the claim.
#[tactic(auto, using(crate::proofs::Following::one_stable_run, crate::proofs::AuditExact::one_whole_run))]
pub fn transfers_tell_the_run()
    ensures slots { (limits : List (Option ℕ)) (ms : List Machine) (slot : ℕ) (traffic : List (List (Option Cell)))
        (f g h : Marked Fabric) (rs ss : List LimitedRecord) →
        LimitedFabricRun IsStable limits ms slot traffic f rs g →
        LimitedFabricRun IsStable limits ms slot traffic f ss h →
        transfers_of_run (slots_in rs) ≡ transfers_of_run (slots_in ss) → (rs ≡ ss) × (g ≡ h) }
    ensures whole { (limits : List (Option ℕ)) (ms : List Machine) (came : List Arrival)
        (start g h : Marked Fabric) (rs ss : List LimitedRecord) →
        StableRun limits ms came start rs g → StableRun limits ms came start ss h →
        transfers_of_run (slots_in rs) ≡ transfers_of_run (slots_in ss) → (rs ≡ ss) × (g ≡ h) }
{}

/// A log is that of a stable run, or is refused for one thing at most, and never both; want of memory is no such thing.
/// It does nothing: its contract is the claim.
#[tactic(auto, using(crate::proofs::AuditExact::audit_is_exact))]
pub fn audits_are_exact()
    ensures { (setup : Setup) (limits : List (Option ℕ)) (came : List Arrival) → IsAuditExact setup limits came }
{}
