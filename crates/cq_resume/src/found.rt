//! The cells that a state names, looked up among those that arrive.
ghost use Rattle.std.specs.Prelude.{◌≡◌, ◌↔◌, ◌<◌, ◌&&◌, ◌==◌, AllPairs, IfErr, IfNone, IfOk, IfSome, IsPermutation, IsTrue, None, OnOk, Some, filter, length, map, true};
ghost use Rattle.std.specs.List.{AllAdjacentBelow, AllByRecursion, AllZip, list_any};
ghost use Rattle.cq_base.specs.Items.{Has};
ghost use Rattle.cq_resume.specs.Finding.{names_of as names_told};
ghost use Rattle.cq_resume.specs.Terms.{IsFound, IsGone, IsMissed, IsNameBefore, IsNameNotAfter, sent_name, told_of, waiting_name, AreArrivals, IsForPorts, IsOnlyFor};

use crate::StateRefusal;
use crate::between::between;
use crate::neighbours::neighbours_hold;
use cq_base::{Key, NoMemory, Port, Queued, Slot};
use cq_cells::Schedule;
use cq_state::{Named, Sent, State};
use std::alloc::{AllocError, Global};

/// A cell that was sent, and when.
#[derive(Clone, Copy)]
pub struct Gone {
    /// The slot in which it was sent.
    pub slot: Slot,
    /// The cell, with its key.
    pub queued: Queued,
}

/// A cell that a state names, and when it was sent, if it was.
#[derive(Clone, Copy)]
pub struct Name {
    /// The cell, with its key.
    pub queued: Queued,
    /// The slot in which it was sent. None where it waits.
    pub sent: Option<Slot>,
}

/// The cells that a state names, in the order of its lines, and once more all together.
#[derive(Drop)]
pub struct Found {
    /// Those in the lists of the inputs.
    pub listed: Vec<Queued>,
    /// Those in the buffers of the outputs.
    pub buffered: Vec<Queued>,
    /// Those that were sent.
    pub sent: Vec<Gone>,
    /// All of them, by input and then by slot of arrival.
    pub names: Vec<Name>,
}

// When and where a cell arrived, as names stand: by input, and then by slot.
fn arrived(name: &Name) -> (Port, Slot)
    ensures { result ≡ (name.now.queued.key.input, name.now.queued.key.slot) }
{
    (name.queued.key.input, name.queued.key.slot)
}

// The cell of this name with its key, if it arrives before the next slot.
fn told_of(schedule: &Schedule, next: Slot, named: Named) -> Option<Queued>
    requires { named.input < schedule.now.ports }
    ensures { result ≡ told_of schedule.now.came next named }
{
    if named.slot >= next {
        return None;
    }
    let cell = schedule.cell_at(named.slot, named.input)?;
    let key = Key {
        level: named.level,
        rank: named.rank,
        slot: named.slot,
        input: named.input,
    };
    Some(Queued { cell, key })
}

// The cell that was sent, and when.
fn gone_of(schedule: &Schedule, next: Slot, sent: Sent) -> Option<Gone>
    requires { sent.cell.input < schedule.now.ports }
    ensures gone { IfSome result (IsGone schedule.now.came next sent) }
    ensures none { IfNone result (IsMissed schedule.now.came next sent.cell) }
{
    let queued = told_of(schedule, next, sent.cell)?;
    Some(Gone {
        slot: sent.slot,
        queued,
    })
}

// What is found for each of these items. The state is refused where nothing is found for one of them.
#[tactic(auto, using(crate::proofs::Cut::finding_steps))]
fn found_all<S: Copy, T: Copy, F: Fn(S) -> Option<T>>(
    alloc: Global,
    items: &[S],
    find: F,
) -> Result<Vec<T>, StateRefusal>
    requires { AllByRecursion (F.pre find) items.now }
    ensures found { IfOk result (λ found. AllZip (λ s t. F.post find s (Some t)) items.now found.items) }
    ensures refused { IfErr result (IsOnlyFor 1 ((s : S) × Has items.now s × F.post find s None)) }
{
    let mut all = Vec::with_capacity(alloc, items.len()).or(Err(StateRefusal::NoMemory))?;
    'items: for item in items {
        let Some(found) = find(*item) else {
            return Err(StateRefusal::Unsound { clause: 1 });
        };
        all.push(found).or(Err(StateRefusal::NoMemory))?;
    }
    Ok(all)
}

// The name of a cell that waits.
fn waiting_name(queued: &Queued) -> Name
    ensures { result ≡ waiting_name queued.now }
{
    Name {
        queued: *queued,
        sent: None,
    }
}

// And that of a cell that was sent.
fn sent_name(gone: &Gone) -> Name
    ensures { result ≡ sent_name gone.now }
{
    Name {
        queued: gone.queued,
        sent: Some(gone.slot),
    }
}

// All names, as the lines stand.
fn all_names(
    alloc: Global,
    listed: &[Queued],
    buffered: &[Queued],
    sent: &[Gone],
) -> Result<Vec<Name>, AllocError>
    ensures { IfOk result (λ names. names.items ≡ names_told listed.now buffered.now sent.now) }
{
    listed
        .iter()
        .map(waiting_name)
        .chain(buffered.iter().map(waiting_name))
        .chain(sent.iter().map(sent_name))
        .collect(alloc)
}

// All names, by input and then by slot of arrival.
fn names_of(
    alloc: Global,
    listed: &[Queued],
    buffered: &[Queued],
    sent: &[Gone],
) -> Result<Vec<Name>, NoMemory>
    ensures same { IfOk result (λ names. IsPermutation (names_told listed.now buffered.now sent.now) names.items) }
    ensures ordered { IfOk result (λ names. AllAdjacentBelow IsNameNotAfter names.items (length names.items)) }
{
    let mut names = all_names(alloc, listed, buffered, sent)?;
    names.sort_unstable_by_key(arrived);
    Ok(names)
}

// Whether a name stands before another.
fn is_before(name: &Name, other: &Name) -> bool
    ensures { IsTrue result ↔ IsNameBefore name.now other.now }
{
    arrived(name) < arrived(other)
}

// Whether each name stands before the next: where they stand in order, whether no two of them are the same.
fn differ(names: &[Name]) -> bool
    ensures { IsTrue result ↔ AllPairs IsNameBefore names.now }
{
    neighbours_hold(names, is_before)
}

/// The cells that a state names. It is refused where one of them does not arrive before the next slot, or is named
/// twice.
pub fn find(alloc: Global, state: &State, schedule: &Schedule) -> Result<Found, StateRefusal>
    requires { IsForPorts schedule.now.ports state.now }
    ensures found { IfOk result (IsFound schedule.now.came state.now) }
    ensures arrive { OnOk result (AreArrivals schedule.now.came state.now) }
    ensures refused { IfErr result (IsOnlyFor 1 (AreArrivals schedule.now.came state.now → ⊥)) }
{
    let next = state.head.next;
    let listed = found_all(alloc, state.listed.as_slice(), |name| {
        told_of(schedule, next, name)
    })?;
    let buffered = found_all(alloc, state.buffered.as_slice(), |name| {
        told_of(schedule, next, name)
    })?;
    let sent = found_all(alloc, state.sent.as_slice(), |sent| {
        gone_of(schedule, next, sent)
    })?;
    let names = names_of(alloc, &listed, &buffered, &sent)?;
    if !differ(&names) {
        return Err(StateRefusal::Unsound { clause: 1 });
    }
    Ok(Found {
        listed,
        buffered,
        sent,
        names,
    })
}

// Whether a name is of the cell that arrived in the slot at the input.
fn is_of(name: &Name, input: Port, slot: Slot) -> bool
    ensures { result ≡ (name.now.queued.key.slot == slot && name.now.queued.key.input == input) }
{
    name.queued.key.slot == slot && name.queued.key.input == input
}

// Whether the name at a place, where there is one, is of the cell that arrived in the slot at the input.
fn is_at(names: &[Name], place: usize, input: Port, slot: Slot) -> bool
    ensures { IsTrue result →
        list_any (λ n. n.queued.key.slot == slot && n.queued.key.input == input) names.now ≡ true }
{
    if place >= names.len() {
        return false;
    }
    is_of(&names[place], input, slot)
}

/// Whether one of the names, which stand in order, is of the cell that arrived in the slot at the input. Where it is
/// the one at this place, it is found at once.
pub fn is_named(names: &[Name], input: Port, slot: Slot, near: usize) -> bool
    requires { AllPairs IsNameBefore names.now }
    ensures { result ≡ list_any (λ n. n.queued.key.slot == slot && n.queued.key.input == input) names.now }
{
    if is_at(names, near, input, slot) {
        return true;
    }
    names.binary_search_by_key(&(input, slot), arrived).is_ok()
}

/// Those of the names, which stand in order, that are of this input.
pub fn names_at(names: &[Name], input: Port) -> &[Name]
    requires { AllPairs IsNameBefore names.now }
    ensures { result.now ≡ filter (λ n. n.queued.key.input == input) names.now }
{
    between(
        names,
        |name| name.queued.key.input <= input,
        |name| name.queued.key.input < input,
    )
}
