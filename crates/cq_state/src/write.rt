//! Writes the text of a state, part by part.
ghost use Rattle.std.specs.Prelude.{◌≡◌, ◌≤◌, ℕ, List, [], ◌∷◌, ◌++◌, length, map, Option, Some, OnOk, IfOk, IfErr};
ghost use Rattle.std.specs.List.{flat_map};
ghost use Rattle.cq_state.specs.Refusals.{IsTooLong, longest_text};
ghost use Rattle.cq_state.specs.State.{state_text, head_lines, numbered, input_line, line_by, rank_line, cell_numbers, moved_line};
ghost use Rattle.cq_state.specs.StateText.{spelled};
ghost use Rattle.cq_state.specs.declared.write.StateLong.TheVariants.{NoMemory as none};

use crate::kind::Kind;
use crate::state::{Head, Named, Seen, Sent, State};
use cq_base::{LONGEST_FILE, NoMemory, Sequence, Transfer};
use cq_lines::put_line;
use std::alloc::{AllocError, Global};

/// Why there is no text.
#[derive(Clone, Copy, Debug, PartialEq, Eq)]
pub enum StateLong {
    /// It would have more than [`LONGEST_TEXT`] bytes.
    Long,
    /// Want of memory.
    NoMemory,
}

impl From<NoMemory> for StateLong {
    ghost from_gives = { λ _ e. e ≡ none };

    fn from(_: NoMemory) -> Self {
        StateLong::NoMemory
    }
}

/// The most bytes that the text of a state may have.
pub const LONGEST_TEXT: usize = LONGEST_FILE;

/// The text of a state. The error is that it would have more than [`LONGEST_TEXT`] bytes, or want of memory.
pub fn text_of(alloc: Global, state: &State) -> Result<Vec<u8>, StateLong>
    ensures text { IfOk result (λ text. text.items ≡ state_text state.now) }
    ensures short { IfOk result (λ text. length text.items ≤ longest_text) }
    ensures long { IfErr result (IsTooLong (state_text state.now)) }
{
    let mut text = Vec::new(alloc);
    put_state(alloc, &mut text, state)?;
    Ok(text)
}

// Refuses what is put so far, where it is too long already.
fn enough(text: &[u8]) -> Result<(), StateLong>
    ensures short { OnOk result (length text.now ≤ longest_text) }
    ensures long { IfErr result (IsTooLong text.now) }
{
    if text.len() > LONGEST_TEXT {
        Err(StateLong::Long)
    } else {
        Ok(())
    }
}

// Puts all parts. Of those that grow with the run it puts no line behind the first with which the text is too long.
fn put_state(alloc: Global, text: &mut Vec<u8>, state: &State) -> Result<(), StateLong>
    ensures text { OnOk result (text.new.items ≡ text.old.items ++ state_text state.now) }
    ensures short { OnOk result (length text.new.items ≤ longest_text) }
    ensures long { IfErr result (IsTooLong (text.old.items ++ state_text state.now)) }
{
    put_head(text, state.head)?;
    put_inputs(text, state.inputs.as_slice())?;
    put_ranks(alloc, text, state.ranks.as_slice())?;
    put_each(text, Kind::Listed, state.listed.as_slice())?;
    put_each(text, Kind::Buffered, state.buffered.as_slice())?;
    put_each(text, Kind::Sent, state.sent.as_slice())?;
    put_each(text, Kind::Moved, state.moved.as_slice())?;
    put_numbers(text, Kind::End, &[])?;
    enough(text.as_slice())
}

fn put_numbers(text: &mut Vec<u8>, kind: Kind, fields: &[Option<u128>]) -> Result<(), NoMemory>
    ensures { OnOk result (text.new.items ≡ text.old.items ++ spelled (record { kind = kind; fields = fields.now })) }
{
    put_line(text, kind.word(), fields)
}

fn put_head(text: &mut Vec<u8>, head: Head) -> Result<(), NoMemory>
    ensures { OnOk result (text.new.items ≡ text.old.items ++ flat_map spelled (head_lines head)) }
{
    put_numbers(text, Kind::Version, &[Some(1)])?;
    put_numbers(text, Kind::Next, &[Some(u128::from(head.next))])?;
    let shape = [
        Some(u128::from(head.ports)),
        Some(u128::from(head.classes)),
        Some(u128::from(head.t0)),
        Some(u128::from(head.total)),
    ];
    put_numbers(text, Kind::Shape, &shape)?;
    let sum = [
        Some(u128::from(head.proposals)),
        Some(u128::from(head.most)),
    ];
    put_numbers(text, Kind::Sum, &sum)
}

#[tactic(auto, using(crate::proofs::Writing::put_steps))]
fn put_inputs(text: &mut Vec<u8>, inputs: &[Seen]) -> Result<(), NoMemory>
    ensures { OnOk result (text.new.items ≡ text.old.items ++ flat_map spelled (numbered input_line 0 inputs.now)) }
{
    'inputs: for (input, seen) in inputs.iter().enumerate() {
        put_numbers(text, Kind::Input, &input_fields(input, *seen))?;
    }
    Ok(())
}

fn input_fields(input: usize, seen: Seen) -> [Option<u128>; 3]
    ensures { result ≡ Some input ∷ Some seen.longest ∷ seen.slack ∷ [] }
{
    [
        Some(input as u128),
        Some(u128::from(seen.longest)),
        seen.slack.map(u128::from),
    ]
}

#[tactic(auto, using(crate::proofs::Writing::put_steps))]
fn put_ranks(alloc: Global, text: &mut Vec<u8>, ranks: &[Sequence<u128>]) -> Result<(), NoMemory>
    ensures { OnOk result (text.new.items ≡ text.old.items ++ flat_map spelled (numbered rank_line 0 ranks.now)) }
{
    'outputs: for (output, numbers) in ranks.iter().enumerate() {
        let fields = rank_fields(alloc, output, numbers.as_slice())?;
        put_numbers(text, Kind::Rank, &fields)?;
    }
    Ok(())
}

fn rank_fields(
    alloc: Global,
    output: usize,
    numbers: &[u128],
) -> Result<Vec<Option<u128>>, AllocError>
    ensures { IfOk result (λ fields. fields.items ≡ map Some (output ∷ numbers.now)) }
{
    let mut fields = Vec::new(alloc);
    fields.push(Some(output as u128))?;
    fields.extend(numbers.iter().map(|number| Some(*number)))?;
    Ok(fields)
}

fn cell_fields(cell: Named) -> [Option<u128>; 4]
    ensures { result ≡ map Some (cell_numbers cell) }
{
    [
        Some(u128::from(cell.level)),
        Some(cell.rank),
        Some(u128::from(cell.slot)),
        Some(u128::from(cell.input)),
    ]
}

// A thing of which the text has a line. `fields` are the fields of that line, and `put` writes it behind the text, with
// the word of a kind.
trait Told {
    ghost fields: { Self → List (Option ℕ) };

    fn put(&self, text: &mut Vec<u8>, kind: Kind) -> Result<(), NoMemory>
        ensures { OnOk result (text.new.items ≡ text.old.items ++ spelled (line_by kind fields self.now)) };
}

// Puts the lines of this kind, one for each of these things, up to the first with which the text is too long.
#[tactic(auto, using(crate::proofs::Writing::put_steps))]
fn put_each<T: Told>(text: &mut Vec<u8>, kind: Kind, items: &[T]) -> Result<(), StateLong>
    ensures lines { OnOk result (text.new.items
        ≡ text.old.items ++ flat_map spelled (map (line_by kind T.fields) items.now)) }
    ensures short { OnOk result (length text.old.items ≤ longest_text → length text.new.items ≤ longest_text) }
    ensures long { IfErr result (IsTooLong
        (text.old.items ++ flat_map spelled (map (line_by kind T.fields) items.now))) }
{
    'items: for item in items {
        item.put(text, kind)?;
        enough(text.as_slice())?;
    }
    Ok(())
}

impl Told for Named {
    ghost fields = { λ c. map Some (cell_numbers c) };

    fn put(&self, text: &mut Vec<u8>, kind: Kind) -> Result<(), NoMemory> {
        put_numbers(text, kind, &cell_fields(*self))
    }
}

impl Told for Sent {
    ghost fields = { λ d. map Some (d.slot ∷ cell_numbers d.cell) };

    fn put(&self, text: &mut Vec<u8>, kind: Kind) -> Result<(), NoMemory> {
        put_numbers(text, kind, &sent_fields(*self))
    }
}

fn sent_fields(sent: Sent) -> [Option<u128>; 5]
    ensures { result ≡ map Some (sent.slot ∷ cell_numbers sent.cell) }
{
    let [level, rank, slot, input] = cell_fields(sent.cell);
    [Some(u128::from(sent.slot)), level, rank, slot, input]
}

impl Told for Transfer {
    ghost fields = { λ t. (moved_line t).fields };

    fn put(&self, text: &mut Vec<u8>, kind: Kind) -> Result<(), NoMemory> {
        put_numbers(text, kind, &moved_fields(*self))
    }
}

fn moved_fields(moved: Transfer) -> [Option<u128>; 6]
    ensures { result ≡ (moved_line moved).fields }
{
    [
        Some(u128::from(moved.slot)),
        Some(u128::from(moved.phase)),
        Some(u128::from(moved.input)),
        Some(u128::from(moved.output)),
        Some(u128::from(moved.id.packet)),
        Some(u128::from(moved.id.index)),
    ]
}
