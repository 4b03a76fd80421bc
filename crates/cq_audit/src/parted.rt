//! The lines of one phase after another.
ghost use Rattle.std.specs.Prelude.{◌≡◌, ◌≤◌, ℕ, drop, length, not, position, take};
ghost use Rattle.std.specs.List.{position_or_len};
ghost use Rattle.cq_audit.specs.Terms.{AreInOrder, AreParted, NoneBefore, is_at};

use cq_base::{Slot, Transfer};

// Whether a line is none of a phase.
fn is_elsewhere(line: &Transfer, slot: Slot, phase: u8) -> bool
    ensures { result ≡ not (is_at slot phase line.now) }
{
    !(line.slot == slot && line.phase == phase)
}

// The place of the first line that is none of a phase.
fn elsewhere(note: &[Transfer], slot: Slot, phase: u8) -> Option<usize>
    ensures { result ≡ position (λ t. not (is_at slot phase t)) note.now }
{
    note.iter().position(|line| is_elsewhere(line, slot, phase))
}

// The same, or the end.
#[tactic(auto, using(cq_base::proofs::Lists::place_found, cq_base::proofs::Lists::first_inside))]
fn end_of_phase(note: &[Transfer], slot: Slot, phase: u8) -> usize
    ensures inside { result ≤ length note.now }
    ensures place { result ≡ position_or_len (λ t. not (is_at slot phase t)) note.now }
{
    elsewhere(note, slot, phase).unwrap_or(note.len())
}

/// The lines ahead of the first that is not of this phase of this slot, and the rest. Where the lines are in order and
/// none is of an earlier phase, these are the lines of the phase, and those behind them.
pub fn part(note: &[Transfer], slot: Slot, phase: u8) -> (&[Transfer], &[Transfer])
    ensures lines { result.0.now ≡ take (position_or_len (λ t. not (is_at slot phase t)) note.now) note.now }
    ensures rest { result.1.now ≡ drop (position_or_len (λ t. not (is_at slot phase t)) note.now) note.now }
    ensures parted { (ports : ℕ) → AreInOrder ports note.now → NoneBefore slot phase note.now →
        AreParted ports slot phase note.now result.0.now result.1.now }
{
    let end = end_of_phase(note, slot, phase);
    (&note[..end], &note[end..])
}
