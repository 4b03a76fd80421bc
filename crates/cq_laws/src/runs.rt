//! Runs: how they go on, and which of them there are. Each law is the contract of a function that does nothing.
ghost use Rattle.std.specs.Prelude.{◌≡◌, ℕ, List, Option};
ghost use Rattle.cq_laws.specs.Terms.{Queued, Machine, orders_of, transfers_of, IsStable, IsInputBest, Partners, FabricSlot, IsEmptyFabric, IsFault, IsLimitedFault, LimitedFabricSlot, AreAlso, GoOn, HaveParts, IsOneRun};

/// A state, its marks and what arrives leave one run with input-best matchings, if there is one: its records,
/// and its end or its tag fault.
#[tactic(auto, using(crate::proofs::OneRun::only_run, crate::proofs::OneRun::only_limited_run))]
pub fn one_run()
    ensures limited { (limits : List (Option ℕ)) (ms : List Machine) →
        IsOneRun (LimitedFabricSlot IsInputBest limits ms) (IsLimitedFault limits ms) }
    // the same of a fabric that knows no limits
    ensures without_limits { (ms : List Machine) → IsOneRun (FabricSlot IsInputBest ms) (IsFault ms) }
{}

/// What is said of stable matchings holds of input-best ones: of a slot, of a run, of a whole run, and of one that
/// stops.
#[tactic(auto, using(crate::proofs::InputBest::stable_too, crate::proofs::InputBest::stable_limited_too))]
pub fn input_best_is_stable()
    ensures limited { (limits : List (Option ℕ)) (ms : List Machine) →
        AreAlso (LimitedFabricSlot IsInputBest limits ms) (LimitedFabricSlot IsStable limits ms)
        (IsLimitedFault limits ms) (λ f. IsEmptyFabric f.state) }
    // the same of a fabric that knows no limits
    ensures without_limits { (ms : List Machine) →
        AreAlso (FabricSlot IsInputBest ms) (FabricSlot IsStable ms) (IsFault ms) IsEmptyFabric }
{}

/// Where a run ended another goes on, whether its matchings are input-best or any stable ones.
#[tactic(auto, using(crate::proofs::Parted::all_go_on))]
pub fn runs_go_on()
    ensures limited_input_best { (limits : List (Option ℕ)) (ms : List Machine) →
        GoOn (LimitedFabricSlot IsInputBest limits ms) (IsLimitedFault limits ms) }
    ensures limited_stable { (limits : List (Option ℕ)) (ms : List Machine) →
        GoOn (LimitedFabricSlot IsStable limits ms) (IsLimitedFault limits ms) }
    // the same of a fabric that knows no limits
    ensures input_best { (ms : List Machine) → GoOn (FabricSlot IsInputBest ms) (IsFault ms) }
    ensures stable { (ms : List Machine) → GoOn (FabricSlot IsStable ms) (IsFault ms) }
{}

/// The first slots of a run are a run, and the others go on from where that ended.
#[tactic(auto, using(crate::proofs::Parted::parts))]
pub fn runs_have_parts()
    ensures limited_input_best { (limits : List (Option ℕ)) (ms : List Machine) →
        HaveParts (LimitedFabricSlot IsInputBest limits ms) }
    ensures limited_stable { (limits : List (Option ℕ)) (ms : List Machine) →
        HaveParts (LimitedFabricSlot IsStable limits ms) }
    // the same of a fabric that knows no limits
    ensures input_best { (ms : List Machine) → HaveParts (FabricSlot IsInputBest ms) }
    ensures stable { (ms : List Machine) → HaveParts (FabricSlot IsStable ms) }
{}

/// The transfers of a phase tell its matching: where two stable matchings of the same lists move the same cells,
/// they are one.
#[tactic(auto, using(crate::proofs::Told::transfers_tell))]
pub fn transfers_tell_the_matching()
    ensures { (lists : List (List Queued)) (m n : Partners) (slot phase : ℕ) →
        IsStable (orders_of lists) m → IsStable (orders_of lists) n →
        transfers_of m lists slot phase ≡ transfers_of n lists slot phase → m ≡ n }
{}
