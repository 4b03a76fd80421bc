//! The trace and the log of a run.
ghost use Rattle.std.specs.Prelude.{◌≡◌, ◌++◌, ℕ, List, IfOk, OnOk, map};
ghost use Rattle.std.specs.List.{flat_map};
ghost use Rattle.cq_base.specs.Packed.{unpacked};
ghost use Rattle.cq_base.specs.Texts.{trace_line, trace_of, log_line, log_of};

use crate::sheet::Sheet;
use cq_base::{Departure, NoMemory, PackedDeparture, Room, Supply, Transfer};
use std::alloc::Global;

// The most bytes of a line of the trace: those of its five numbers, and what stands behind each.
const TRACE_LINE: usize = 20 + 5 + 5 + 10 + 10 + 5;

// The most bytes of a line of the log: those of its six numbers, and what stands behind each.
const LOG_LINE: usize = 20 + 3 + 5 + 5 + 10 + 10 + 6;

// What has a line in a text. `line` is that line, and `put` puts it behind the text and what is gathered.
trait Lined {
    ghost line: { Self → List ℕ };

    fn put(&self, sheet: &mut Sheet, text: &mut Vec<u8>) -> Result<(), NoMemory>
        ensures { OnOk result (text.new.items ++ sheet.new ≡ (text.old.items ++ sheet.old) ++ line self.now) };
}

impl Lined for Departure {
    ghost line = { trace_line };

    fn put(&self, sheet: &mut Sheet, text: &mut Vec<u8>) -> Result<(), NoMemory> {
        sheet.put_departure(text, self)
    }
}

impl Lined for PackedDeparture {
    ghost line = { λ packed. trace_line (unpacked packed) };

    fn put(&self, sheet: &mut Sheet, text: &mut Vec<u8>) -> Result<(), NoMemory> {
        sheet.put_departure(text, &self.departure())
    }
}

impl Lined for Transfer {
    ghost line = { log_line };

    fn put(&self, sheet: &mut Sheet, text: &mut Vec<u8>) -> Result<(), NoMemory> {
        sheet.put_transfer(text, self)
    }
}

// The lines of the items, in the order in which they stand. Each has so many bytes at most.
#[tactic(auto, using(crate::proofs::OneMore::one_line_more, std::proofs::lemmas::List::take_all))]
fn text_of<T: Lined>(alloc: Global, items: &[T], most: usize) -> Result<Vec<u8>, NoMemory>
    ensures { IfOk result (λ text. text.items ≡ flat_map T.line items.now) }
{
    let mut text = Vec::with_capacity(alloc, items.len().saturating_mul(most))?;
    let mut sheet = Sheet::new();
    'items: for item in items {
        item.put(&mut sheet, &mut text)?;
    }
    sheet.hand_over(&mut text)?;
    Ok(text)
}

/// The trace of the departures, in the order in which they stand: one line each, with its slot, its
/// output, and the input, the packet and the number of the cell that left. Numbers are in decimal
/// digits, parted by one blank, and each line ends with a line feed. The error is want of memory.
#[tactic(auto, unfolding(cq_base::specs::Texts::trace_of))]
pub fn trace_text(alloc: Global, sent: &[Departure]) -> Result<Vec<u8>, NoMemory>
    ensures { IfOk result (λ text. text.items ≡ trace_of sent.now) }
{
    text_of(alloc, sent, TRACE_LINE)
}

/// The text of [`trace_text`] of departures that are packed. The error is want of memory.
#[tactic(auto, using(crate::proofs::OneMore::packed_steps), unfolding(cq_base::specs::Texts::trace_of))]
pub fn trace_text_of_packed(alloc: Global, sent: &[PackedDeparture]) -> Result<Vec<u8>, NoMemory>
    ensures { IfOk result (λ text. text.items ≡ trace_of (map unpacked sent.now)) }
{
    text_of(alloc, sent, TRACE_LINE)
}

/// The log of the transfers, in the order in which they stand: one line each, with its slot, its phase,
/// its input, its output, and the packet and the number of the cell that crossed. Numbers are in
/// decimal digits, parted by one blank, and each line ends with a line feed. The error is want of
/// memory.
#[tactic(auto, unfolding(cq_base::specs::Texts::log_of))]
pub fn log_text(alloc: Global, note: &[Transfer]) -> Result<Vec<u8>, NoMemory>
    ensures { IfOk result (λ text. text.items ≡ log_of note.now) }
{
    text_of(alloc, note, LOG_LINE)
}

/// The text of [`log_text`]. The transfers are used up while it grows, so that their memory serves for it. The error
/// is want of memory.
#[tactic(auto, using(crate::proofs::OneMore::left_steps), unfolding(cq_base::specs::Texts::log_of))]
pub fn log_text_of_room(alloc: Global, note: Room<Transfer>) -> Result<Vec<u8>, NoMemory>
    ensures { IfOk result (λ text. text.items ≡ log_of note.items) }
{
    let mut text = Vec::with_capacity(alloc, note.items().len().saturating_mul(LOG_LINE))?;
    let mut left = Supply::of(note.into_vec());
    let mut sheet = Sheet::new();
    'transfers: while let Some(transfer) = left.pop_first() {
        sheet.put_transfer(&mut text, &transfer)?;
    }
    sheet.hand_over(&mut text)?;
    Ok(text)
}
