//! Switches whose outputs have limits. Each law is the contract of a function that does nothing.
ghost use Rattle.std.specs.Prelude.{◌≡◌, ℕ, ◌++◌, Bool, List, [], ◌∷◌, Option, Ok};
ghost use Rattle.cq_ideal.specs.Terms.{Cell, no_arrivals, Admission, MarksDecide, NoLimits, RefusesNone, marks_down, EachLeavesOrIsRefused, RefusesNoneElsewhere, discard_admissions, discard_ran, discard_refused, discard_slots, first_come_all, limit_one, FlowsLeaveInPackets, IsRunOfAdmitted, IsRunOfAll, LimitedRunIsWhole, empty_limited, limited_run, AreAllZero, EachCountsOnce, refused_counts, refused_in, with_refused, CellsComeInOrder, RunsAdmitWholePackets, WholePacketsAreAdmitted};

/// A run with limits is the run without limits of the arrivals that it admits, slot by slot. So what is said of
/// runs without limits is said of admitted cells.
#[tactic(auto, using(crate::proofs::LimitedRuns::run_of_admitted))]
pub fn limited_run_is_run_of_admitted()
    ensures { IsRunOfAdmitted }
{}

/// Packets are admitted or refused whole: a mark stays as it is from a packet's first cell to its last. So of
/// the cells that come to an input those that are admitted are all cells of some of the packets.
pub fn whole_packets_are_admitted()
    ensures by_mark { MarksDecide }
    ensures run { RunsAdmitWholePackets }
    // and whatever the outputs hold as the arrivals are judged
    ensures judged { WholePacketsAreAdmitted }
    // what comes to an input slot by slot are its arrivals in their order
    ensures in_order { CellsComeInOrder }
{}

/// Every packet leaves or is refused, once, in a whole run without a tag fault: of the cells that come to an input
/// those of some packets leave their outputs, and those of the others are refused, with none left over. And what is
/// refused is for outputs that have limits.
#[tactic(auto, using(crate::proofs::EachLeaves::leave_or_refuse_steps))]
pub fn each_packet_leaves_or_is_refused()
    ensures each { EachLeavesOrIsRefused }
    ensures nowhere_else { RefusesNoneElsewhere }
{}

/// A run with limits has enough slots where the run without has: where no rank is a tag fault, all lists are
/// empty at its end.
#[tactic(auto, using(crate::proofs::EnoughSlots::limited_empty_at_end))]
pub fn limited_run_is_whole()
    ensures { LimitedRunIsWhole }
{}

/// The cells of one input and class for one output leave it in the order in which they came, and none is lost
/// but those of the packets that were refused whole, in every run that ends without a tag fault.
#[tactic(auto, using(crate::proofs::FlowLaw::flows_leave_in_packets))]
pub fn flows_leave_in_packets()
    ensures { FlowsLeaveInPackets }
{}

/// Where no output has a limit and no mark is up nothing is refused, nor where no cell arrives. So a run in
/// which no output has a limit is the run that it was before there were limits.
#[tactic(auto, using(crate::proofs::LimitedRuns::refuse_none_steps))]
pub fn nothing_is_refused_without_limits()
    ensures no_limits { (limits : List (Option ℕ)) (ports : ℕ) (cells : List (Option Cell)) →
        NoLimits limits → RefusesNone limits (marks_down ports) cells }
    ensures no_arrivals { (limits : List (Option ℕ)) (marks : List Bool) → RefusesNone limits marks no_arrivals }
    ensures run { IsRunOfAll }
{}

/// What was refused in a run, at each output that has a limit, is what was refused in its slots, one after
/// another. And each cell that comes is admitted, or is counted among those that were refused at its output.
pub fn refused_counts_add_up()
    ensures none { (limits : List (Option ℕ)) → AreAllZero (refused_counts limits []) }
    ensures more { (limits : List (Option ℕ)) (before now : List Cell) →
        refused_counts limits (before ++ now) ≡ with_refused now (refused_counts limits before) }
    ensures one_more { (admissions : List Admission) (a : Admission) →
        refused_in (admissions ++ a ∷ []) ≡ refused_in admissions ++ a.refused }
    ensures each_once { EachCountsOnce }
{}

/// Four slots worked out by hand, with limit 1 at output 0. It is full for a packet that comes in the same slot
/// behind a cell that it admitted, and for one that finds a cell from an earlier slot. The second cell of a
/// refused packet is refused too, though the output is empty again, and the second cell of an admitted one is
/// admitted, though it is full. The next packet of an input is judged anew.
pub fn worked_discard()
    ensures run { limited_run limit_one first_come_all 0 discard_slots (empty_limited 3 ([] ∷ [] ∷ [] ∷ []))
        ≡ Ok discard_ran }
    ensures refused { refused_counts limit_one (refused_in discard_admissions) ≡ discard_refused }
{}
