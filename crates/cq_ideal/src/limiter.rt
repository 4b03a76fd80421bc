//! What is refused where outputs have limits.
//!
//! A packet is refused whole, by what its output holds as its first cell arrives. How many cells that is stands in a
//! number which is kept: it rises with each cell that is admitted, and falls as the switch tells that one has left.
ghost use Rattle.std.specs.Prelude.{◌≡◌, ◌+◌, ◌<◌, ◌≤◌, ◌^◌, ℕ, Some, None, IfOk, IfSome, [], false, length, option_to_list, replicate, slice_index_or, slice_set};
ghost use Rattle.cq_ideal.specs.Terms.{Cell, arrival_at, admitted, held_after, is_full, mark_after, mark_at, marks_after, marks_down, refused, count_for, CanCount, ComeToPorts, HasPorts, JudgesAsBefore, held_without, where_up, refused_counts, with_refused, most_ports};

use crate::Refused;
use crate::refused::{count_refused, none_refused};
use cq_base::{Arrivals, Cell, NoMemory, Port, Queued};
use std::alloc::Global;
use std::marker::Model;

/// Which packets are refused, and how many were. Contracts see the limits of the outputs, how many cells each output
/// holds, the marks of the inputs, and the numbers of refused packets and cells.
#[derive(Drop)]
pub struct Limiter {
    limits: Vec<Option<u64>>,
    held: Vec<u64>,
    marks: Vec<bool>,
    refused: Vec<Refused>,
}

impl Model for Limiter {
    ghost use Rattle.cq_ideal.specs.Limiter.{HasPorts, LimiterView};

    ghost Value = { LimiterView };

    ghost view = { λ a. record {
      limits = a.limits.items;
      held = a.held.items;
      marks = a.marks.items;
      refused =
          a.refused.items;
    } };

    ghost invariant = { λ a. HasPorts (record {
      limits = a.limits.items;
      held = a.held.items;
      marks =
          a.marks.items;
      refused = a.refused.items;
    }) };
}

// Whether an output with this limit, or with none, is full when it holds so many cells.
#[tactic(auto, using(std::proofs::lemmas::Bool::Decides::nat_tests))]
fn full(limit: Option<u64>, held: u64) -> bool
    ensures { result ≡ is_full limit held }
{
    limit.is_some_and(|limit| limit <= held)
}

impl Limiter {
    /// No output holds a cell, no packet is refused, and nothing was. The error is want of memory.
    pub fn new(alloc: Global, limits: &[Option<u64>]) -> Result<Limiter, NoMemory>
        requires { length limits.now ≤ most_ports }
        ensures limits { IfOk result (λ limiter. limiter.limits ≡ limits.now) }
        ensures held { IfOk result (λ limiter. limiter.held ≡ replicate (length limits.now) 0) }
        ensures marks { IfOk result (λ limiter. limiter.marks ≡ marks_down (length limits.now)) }
        ensures refused { IfOk result (λ limiter. limiter.refused ≡ refused_counts limits.now []) }
    {
        Ok(Limiter {
            limits: Vec::from_slice(alloc, limits)?,
            held: vec![in alloc; 0; limits.len()]?,
            marks: vec![in alloc; false; limits.len()]?,
            refused: none_refused(alloc, limits)?,
        })
    }

    /// Outputs with these limits hold so many cells, these marks are up, and so much was refused. The error is want of
    /// memory.
    #[tactic(auto, using(crate::proofs::Changed::item_steps))]
    pub fn of(
        alloc: Global,
        limits: &[Option<u64>],
        held: &[u64],
        marks: &[bool],
        refused: &[Refused],
    ) -> Result<Limiter, NoMemory>
        requires held { length held.now ≡ length limits.now }
        requires marks { length marks.now ≡ length limits.now }
        ensures limits { IfOk result (λ limiter. limiter.limits ≡ limits.now) }
        ensures held { IfOk result (λ limiter. limiter.held ≡ held.now) }
        ensures marks { IfOk result (λ limiter. limiter.marks ≡ marks.now) }
        ensures refused { IfOk result (λ limiter. limiter.refused ≡ refused.now) }
    {
        Ok(Limiter {
            limits: Vec::from_slice(alloc, limits)?,
            held: Vec::from_slice(alloc, held)?,
            marks: Vec::from_slice(alloc, marks)?,
            refused: Vec::from_slice(alloc, refused)?,
        })
    }

    // Whether the mark of an input is up.
    fn is_up(&self, input: Port) -> bool
        requires { input < length self.now.marks }
        ensures { result ≡ mark_at self.now.marks input }
    {
        self.marks[input as usize]
    }

    // The mark of an input at which this cell arrives, where it was this.
    fn mark_after(&self, mark: bool, cell: Cell) -> bool
        requires { cell.output < length self.now.limits }
        ensures { result ≡ mark_after self.now.limits self.now.held mark (Some cell) }
    {
        let output = cell.output as usize;
        if cell.id.index == 0 {
            full(self.limits[output], self.held[output])
        } else {
            mark
        }
    }

    // What arrives at an input is judged: a cell's output holds it if it is admitted.
    #[tactic(auto, using(crate::proofs::Counting::turn_steps))]
    fn turn(&mut self, input: Port, cell: Option<Cell>)
        requires input { input < length self.old.marks }
        requires output { IfSome cell (λ c. c.output < length self.old.limits) }
        requires few { IfSome cell (λ c. slice_index_or self.old.held c.output 0 + 1 < 2 ^ 64) }
        ensures marks { self.new.marks ≡ slice_set self.old.marks input (mark_after self.old.limits self.old.held
            (mark_at self.old.marks input) cell) }
        ensures held { self.new.held ≡ held_after (mark_after self.old.limits self.old.held (mark_at self.old.marks
            input) cell) self.old.held cell }
        ensures limits { self.new.limits ≡ self.old.limits }
        ensures refused { self.new.refused ≡ self.old.refused }
    {
        if let Some(cell) = cell {
            let up = self.mark_after(self.is_up(input), cell);
            self.marks[input as usize] = up;
            if !up {
                self.held[cell.output as usize] += 1;
            }
        }
    }

    // How many inputs there are.
    fn len(&self) -> u16
        requires { length self.now.limits ≤ most_ports }
        ensures len { result ≡ length self.now.limits }
        ensures ports { HasPorts self.now }
    {
        self.limits.len() as u16
    }

    /// The arrivals of a slot are judged in order of input: which marks are up after it, and how many cells each
    /// output holds with those that are admitted.
    #[tactic(auto, using(crate::proofs::Counting::judge_steps))]
    pub fn judge(&mut self, arrivals: &Arrivals)
        requires few { length self.old.limits ≤ most_ports }
        requires arrivals { ComeToPorts (length self.old.limits) arrivals.now }
        requires held { (j : ℕ) → j < length self.old.limits → slice_index_or self.old.held j 0 + count_for j
            arrivals.now < 2 ^ 64 }
        ensures marks { self.new.marks ≡ marks_after self.old.limits self.old.held self.old.marks arrivals.now }
        ensures held { (j : ℕ) → j < length self.old.limits → slice_index_or self.new.held j 0 ≡ slice_index_or
            self.old.held j 0 + count_for j (admitted self.new.marks arrivals.now) }
        ensures limits { self.new.limits ≡ self.old.limits }
        ensures refused { self.new.refused ≡ self.old.refused }
        ensures ports { HasPorts self.new }
    {
        let ports = self.len();
        'inputs: for input in 0..ports {
            let cell = arrivals.at(input);
            self.turn(input, cell);
        }
    }

    /// The cell that arrives at an input, if it is admitted.
    #[tactic(auto, using(crate::proofs::Admitted::admitted_at, crate::proofs::Admitted::as_many_admitted))]
    pub fn admitted(&self, arrivals: &Arrivals, input: Port) -> Option<Cell>
        requires { input < length self.now.marks }
        ensures answer { result ≡ arrival_at (admitted self.now.marks arrivals.now) input }
        ensures arrives { (cell : Cell) → result ≡ Some cell → arrival_at arrivals.now input ≡ Some cell }
        ensures places { length (admitted self.now.marks arrivals.now) ≡ most_ports }
    {
        let up = self.is_up(input);
        let cell = arrivals.at(input);
        if up { None } else { cell }
    }

    // A refused cell is counted, if there is one.
    #[tactic(auto, using(crate::proofs::Counting::none_counted))]
    fn tally(&mut self, cell: Option<Cell>)
        requires { CanCount 1 self.old.refused }
        ensures refused { self.new.refused ≡ with_refused (option_to_list cell) self.old.refused }
        ensures marks { self.new.marks ≡ self.old.marks }
        ensures held { self.new.held ≡ self.old.held }
        ensures limits { self.new.limits ≡ self.old.limits }
    {
        if let Some(cell) = cell {
            count_refused(&mut self.refused, cell);
        }
    }

    // The cell that arrives at an input, if it is refused.
    fn refused_at(&self, arrivals: &Arrivals, input: Port) -> Option<Cell>
        requires { input < length self.now.marks }
        ensures answer { result ≡ where_up (mark_at self.now.marks input) (arrival_at arrivals.now input) }
        ensures places { length arrivals.now ≡ most_ports }
    {
        let up = self.is_up(input);
        let cell = arrivals.at(input);
        if up { cell } else { None }
    }

    /// The cells of a slot that were refused as it was judged are counted. Where no output has a limit there is nothing
    /// to count, and no arrival is looked at.
    #[tactic(auto, using(crate::proofs::Counting::count_steps))]
    pub fn count(&mut self, arrivals: &Arrivals)
        requires few { length self.old.limits ≤ most_ports }
        requires refused { CanCount (length self.old.limits) self.old.refused }
        ensures refused { self.new.refused ≡ with_refused (refused self.old.marks arrivals.now) self.old.refused }
        ensures marks { self.new.marks ≡ self.old.marks }
        ensures held { self.new.held ≡ self.old.held }
        ensures limits { self.new.limits ≡ self.old.limits }
    {
        let counts = self.refused();
        if counts.len() == 0 {
            return;
        }
        let ports = self.len();
        'inputs: for input in 0..ports {
            let cell = self.refused_at(arrivals, input);
            self.tally(cell);
        }
    }

    /// An output has sent this cell, which it holds no longer, or none.
    pub fn sent(&mut self, output: Port, gone: Option<Queued>)
        requires output { output < length self.old.held }
        requires holds { IfSome gone (λ _. 0 < slice_index_or self.old.held output 0) }
        ensures held { self.new.held ≡ held_without gone output self.old.held }
        ensures judges { JudgesAsBefore self.old self.new }
    {
        if gone.is_some() {
            self.held[output as usize] -= 1;
        }
    }

    /// The numbers of packets and cells that were refused, for each output that has a limit, in order of output.
    pub fn refused(&self) -> &[Refused]
        ensures { result.now ≡ self.now.refused }
    {
        self.refused.as_slice()
    }

    /// For each input whether its mark is up: the packet that is arriving there, or arrived last, is refused.
    pub fn marks(&self) -> &[bool]
        ensures { result.now ≡ self.now.marks }
    {
        self.marks.as_slice()
    }

    /// The numbers of what was refused, without the limiter.
    pub fn into_refused(self) -> Vec<Refused>
        ensures { result.items ≡ self.refused }
    {
        let Limiter {
            limits: _,
            held: _,
            marks: _,
            refused,
        } = self;
        refused
    }
}
