//! Laws of what arrives.
ghost use Rattle.std.specs.Prelude.{◌≡◌, ℕ, ◌<◌, List, filter, length};
ghost use Rattle.cq_cells.specs.Terms.{arrivals, arrivals_at, packets_of, IsRecorded, IsShort, IsTraffic, is_from, Captured, Tables, AreTables, classes_of, ports_of};

/// Each cell that arrives comes to a port, goes to a port and is of a class of the tables, and the
/// cells of an input arrive one after another: at most one in a slot.
#[tactic(auto, using(crate::proofs::Rising::traffic_is))]
pub fn one_cell_arrives_a_slot()
    ensures { (t : Tables) (captures : List (List Captured)) → AreTables t → length captures ≡ ports_of t.setup →
        IsTraffic (ports_of t.setup) (classes_of t.setup) (arrivals t captures) }
{}

/// The arrivals of captures that were read end early: 64 bits count the slots of a run, with one slot
/// for each cell after the last has come.
#[tactic(auto, using(crate::proofs::Rising::short_is))]
pub fn arrivals_end_early()
    ensures { (t : Tables) (captures : List (List Captured)) → AreTables t → length captures ≡ ports_of t.setup →
        ((i : ℕ) → i < length captures → IsRecorded (packets_of captures i)) → IsShort (arrivals t captures) }
{}

/// The cells that arrive at an input are those of its packets, packet after packet in the order of its capture,
/// each from its first cell to its last.
#[tactic(auto, using(crate::proofs::Rising::at_input))]
pub fn packets_arrive_in_order()
    ensures { (t : Tables) (captures : List (List Captured)) (input : ℕ) → input < length captures →
        filter (is_from input) (arrivals t captures) ≡ arrivals_at t captures input }
{}
