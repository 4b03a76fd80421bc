//! Writes a stopped run as the text of its state.
ghost use Rattle.std.specs.Prelude.{◌≡◌, ◌<◌, ◌≤◌, ◌^◌, ◌++◌, IfErr, IfOk, OnOk, length, map};
ghost use Rattle.std.specs.List.{flat_map};
ghost use Rattle.cq_resume.specs.Terms.{named_as, seen_as, sent_as, state_of, told_by, IsTooLong, longest_text, state_text};

use crate::Frozen;
use cq_base::{Departure, InputFigures, NoMemory, Port, Queued, Sequence, Transfer};
use cq_state::{Head, Named, Seen, Sent, State, StateLong, text_of};
use std::alloc::{AllocError, Global};

// A cell by its name, with its key.
fn named_as(queued: Queued) -> Named
    ensures { result ≡ named_as queued }
{
    Named {
        level: queued.key.level,
        rank: queued.key.rank,
        slot: queued.key.slot,
        input: queued.key.input,
    }
}

// What was seen of an input's list.
fn seen_as(figures: InputFigures) -> Seen
    ensures { result ≡ seen_as figures }
{
    Seen {
        longest: figures.longest,
        slack: figures.slack,
    }
}

// A departure by its cell's name.
fn sent_as(departure: Departure) -> Sent
    ensures { result ≡ sent_as departure }
{
    Sent {
        slot: departure.slot,
        cell: named_as(departure.queued),
    }
}

// What was seen of each input.
fn all_seen(alloc: Global, inputs: &[InputFigures]) -> Result<Vec<Seen>, AllocError>
    ensures { IfOk result (λ seen. seen.items ≡ map seen_as inputs.now) }
{
    inputs
        .iter()
        .map(|figures| seen_as(*figures))
        .collect(alloc)
}

// The numbers of each rank state.
#[tactic(auto, using(std::proofs::lemmas::List::take_more, std::proofs::lemmas::List::take_all))]
fn all_numbers(
    alloc: Global,
    ranks: &[Sequence<u128>],
) -> Result<Sequence<Sequence<u128>>, NoMemory>
    ensures { IfOk result (λ copies. copies ≡ ranks.now) }
{
    let mut copies = Vec::new(alloc);
    'outputs: for numbers in ranks {
        let copy = Sequence::copy_of(alloc, numbers.as_slice())?;
        copies.push(copy)?;
    }
    Ok(Sequence::of(copies))
}

// The names of these cells are put behind the others.
fn put_named(named: &mut Vec<Named>, cells: &[Queued]) -> Result<(), AllocError>
    ensures { OnOk result (named.new.items ≡ named.old.items ++ map named_as cells.now) }
{
    named.extend(cells.iter().map(|queued| named_as(*queued)))
}

// The cells of all these queues by their names, one queue after the other.
#[tactic(auto, using(crate::proofs::Cut::naming_steps))]
fn all_named(alloc: Global, queues: &[Sequence<Queued>]) -> Result<Sequence<Named>, NoMemory>
    ensures { IfOk result (λ named. named ≡ map named_as (flat_map (λ cells. cells) queues.now)) }
{
    let mut named = Vec::new(alloc);
    'queues: for queue in queues {
        put_named(&mut named, queue.as_slice())?;
    }
    Ok(Sequence::of(named))
}

// The departures by the names of their cells.
fn all_sent(alloc: Global, sent: &[Departure]) -> Result<Vec<Sent>, AllocError>
    ensures { IfOk result (λ lines. lines.items ≡ map sent_as sent.now) }
{
    sent.iter()
        .map(|departure| sent_as(*departure))
        .collect(alloc)
}

// What a stopped run tells, with this at its head.
fn told(
    alloc: Global,
    head: Head,
    frozen: &Frozen,
    sent: &[Departure],
    note: &[Transfer],
) -> Result<State, NoMemory>
    ensures { IfOk result (λ state. state ≡ told_by head frozen.now sent.now note.now) }
{
    Ok(State {
        head,
        inputs: Sequence::of(all_seen(alloc, frozen.figures.inputs.as_slice())?),
        ranks: all_numbers(alloc, frozen.ranks.as_slice())?,
        listed: all_named(alloc, frozen.lists.as_slice())?,
        buffered: all_named(alloc, frozen.buffers.as_slice())?,
        sent: Sequence::of(all_sent(alloc, sent)?),
        moved: Sequence::copy_of(alloc, note)?,
    })
}

/// The text of a stopped run: its frozen state, its departures and its transfers so far, the stamp from which slots are
/// counted, how many classes there are, and how many cells the schedule has. There is a list for each port.
///
/// - `Long`: the text would have more than 268,435,456 bytes.
/// - `NoMemory`: there was not the memory for it.
#[tactic(auto, unfolding(crate::specs::Reading::state_of))]
pub fn state_bytes(
    alloc: Global,
    frozen: &Frozen,
    sent: &[Departure],
    note: &[Transfer],
    t0: u64,
    classes: u16,
    total: u64,
) -> Result<Vec<u8>, StateLong>
    requires ports { length frozen.now.lists < 2 ^ 16 }
    ensures text { IfOk result (λ text. text.items ≡ state_text
        (state_of frozen.now sent.now note.now t0 classes total)) }
    ensures short { IfOk result (λ text. length text.items ≤ longest_text) }
    ensures long { IfErr result (IsTooLong (state_text (state_of frozen.now sent.now note.now t0 classes total))) }
{
    let head = Head {
        next: frozen.next,
        ports: frozen.lists.as_slice().len() as Port,
        classes,
        t0,
        total,
        proposals: frozen.figures.proposals,
        most: frozen.figures.most,
    };
    let state = told(alloc, head, frozen, sent, note)?;
    let text = text_of(alloc, &state);
    drop(state);
    text
}
