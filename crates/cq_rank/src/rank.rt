//! The trait of what ranks the cells of an output.
ghost use Rattle.std.specs.Prelude.{◌≡◌, ◌↔◌, ◌<◌, ◌≤◌, ◌^◌, ℕ, List, IfOk, IsErr, OnErr, OnOk, length, slice_index, slice_set};
ghost use Rattle.cq_base.specs.Limits.{level_count};
ghost use Rattle.cq_rank.specs.Machine.{Machine, KeepsLaws};

use cq_base::Class;

/// A rank that does not fit 128 bits.
#[derive(Clone, Copy, Debug, PartialEq, Eq)]
pub struct TagOverflow;

/// What an output ranks its cells by. Contracts see it as a machine, which its fixed numbers give, and
/// the state of that machine.
pub trait Rank: Drop {
    /// The numbers that no call changes.
    ghost fixed: { Self → List ℕ };

    /// The state of the machine.
    ghost state: { Self → List ℕ };

    /// The machine that the fixed numbers give.
    ghost machine: { List ℕ → Machine };

    /// How many classes it knows.
    fn classes(&self) -> u16
        ensures classes { result ≡ (machine (fixed self.now)).classes }
        ensures sized { length (state self.now) ≡ (machine (fixed self.now)).size };

    /// The level of a cell of the class, which is below 16. It comes before the rank: at every output a cell of a
    /// lesser level is the more urgent.
    fn level(&self, class: Class) -> u8
        requires { class < (machine (fixed self.now)).classes }
        ensures level { result ≡ (machine (fixed self.now)).level class }
        ensures few { result < level_count };

    /// The rank of a cell of the class that arrives, which the state then knows of. The error, which
    /// leaves the state as before, is a rank of 2^128 or more.
    fn rank(&mut self, class: Class) -> Result<u128, TagOverflow>
        requires { class < (machine (fixed self.old)).classes }
        ensures fixed { fixed self.new ≡ fixed self.old }
        ensures rank { IfOk result (λ rank. rank ≡ (machine (fixed self.old)).ranked (state self.old) class) }
        ensures given { OnOk result (state self.new ≡ (machine (fixed self.old)).given (state self.old) class) }
        ensures overflow { IsErr result ↔ (2 ^ 128 ≤ (machine (fixed self.old)).ranked (state self.old) class) }
        ensures refused { OnErr result (state self.new ≡ state self.old) };

    /// The output sent a cell of this level and this rank in the slot that ends.
    fn sent(&mut self, level: u8, rank: u128)
        ensures fixed { fixed self.new ≡ fixed self.old }
        ensures state { state self.new ≡ (machine (fixed self.old)).sent (state self.old) level rank };

    /// The output sent nothing in the slot that ends.
    fn idle(&mut self)
        ensures fixed { fixed self.new ≡ fixed self.old }
        ensures state { state self.new ≡ (machine (fixed self.old)).idle (state self.old) };

    /// How many numbers the state has.
    fn width(&self) -> u16
        ensures width { result ≡ length (state self.now) }
        ensures sized { result ≡ (machine (fixed self.now)).size };

    /// The number that stands at a place of the state.
    fn number(&self, at: u16) -> u128
        requires { at < length (state self.now) }
        ensures { result ≡ slice_index (state self.now) at };

    /// Sets the number at a place of the state. The others stay.
    fn put(&mut self, at: u16, number: u128)
        requires { at < length (state self.old) }
        ensures fixed { fixed self.new ≡ fixed self.old }
        ensures state { state self.new ≡ slice_set (state self.old) at number };

    /// Each machine keeps the laws.
    ghost laws: { (numbers : List ℕ) → KeepsLaws (machine numbers) };
}
