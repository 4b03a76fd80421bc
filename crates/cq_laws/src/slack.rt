//! What each phase of a slot does to the slack of the cells that wait at the inputs. Each law is the contract
//! of a function that does nothing.
ghost use Rattle.std.specs.Prelude.{ℕ, List, Option};
ghost use Rattle.cq_laws.specs.Terms.{Cell, Queued, Machine, orders_of, Partners, IsStable, Fabric, IsAmong, IsFabric, ListsKeepOrder, buffer, Arrives, Transfers, Departs, IsMostUrgentFor, NoKeyTwice, EachArrivesOrFalls, EachRises, EachFalls, HasSlack};

/// A cell that arrives has slack 0 at least, and arrivals lower the slack of every other by one at most.
#[tactic(auto, using(crate::proofs::AfterPhases::arrivals_fall))]
pub fn slack_after_arrivals()
    ensures { (ms : List Machine) (slot : ℕ) (cells : List (Option Cell)) (came : List (Option Queued))
        (old new : Fabric) →
        Arrives ms slot cells came old new → EachArrivesOrFalls came old new }
{}

/// A stable matching that is transferred raises the slack of every cell that it leaves at an input by one
/// at least.
#[tactic(auto, using(crate::proofs::AfterPhases::matching_rises, crate::proofs::Sound::apart_from))]
pub fn slack_after_matching()
    ensures { (m : Partners) (old new : Fabric) → IsFabric old → ListsKeepOrder old → NoKeyTwice old →
        IsStable (orders_of old.inputs) m → Transfers m old new → EachRises 1 old new }
{}

/// Departures lower a slack by one at most.
#[tactic(auto, using(crate::proofs::AfterPhases::departures_fall))]
pub fn slack_after_departures()
    ensures { (ms : List Machine) (gone : List (Option Queued)) (old new : Fabric) →
        Departs ms gone old new → EachFalls 1 old new }
{}

/// Where every slack is 0 at least, the most urgent cell for each output stands in the output's buffer once a
/// stable matching is transferred.
#[tactic(auto, using(crate::proofs::AfterPhases::least_buffered, crate::proofs::Sound::apart_from))]
pub fn head_of_line()
    ensures { (m : Partners) (old new : Fabric) → IsFabric old → ListsKeepOrder old → NoKeyTwice old → HasSlack 0 old →
        IsStable (orders_of old.inputs) m → Transfers m old new →
        (j : ℕ) (c : Queued) → IsMostUrgentFor old j c → IsAmong c (buffer new j) }
{}
