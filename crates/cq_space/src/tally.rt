//! The calls of files in memory, which a test numbers and sets to fail.
ghost use Rattle.std.specs.Prelude.{◌≡◌, ◌++◌, ◌∷◌, [], ◌<◌, ◌≤◌, None, Some, OnOk, OnErr};
ghost use Rattle.cq_space.specs.Calls.{IsShort, next_fails, one_more};

use cq_base::NoMemory;
use std::alloc::Global;
use std::marker::Model;

/// How many calls there were, the numbers of those that are set to fail, and how many bytes one moves
/// at most.
#[derive(Drop)]
pub(crate) struct Tally {
    made: u64,
    failing: Vec<u64>,
    most: Option<usize>,
}

impl Model for Tally {
    ghost use Rattle.cq_space.specs.Calls.{Calls, MovesSome};

    ghost Value = { Calls };

    ghost view = { λ t. record { made = t.made; failing = t.failing.items; most = t.most } };

    ghost invariant = { λ t. MovesSome t.most };
}

impl Tally {
    /// No call, and none that is set to fail. One moves as many bytes as it is asked to.
    pub(crate) fn new(alloc: Global) -> Self
        ensures made { result.made ≡ 0 }
        ensures failing { result.failing ≡ [] }
        ensures most { result.most ≡ None }
    {
        Tally {
            made: 0,
            failing: Vec::new(alloc),
            most: None,
        }
    }

    /// Counts a call, and tells whether it is one that is set to fail.
    pub(crate) fn next(&mut self) -> bool
        ensures fails { result ≡ next_fails self.old }
        ensures made { self.new ≡ one_more self.old }
        ensures later { self.old.made ≤ self.new.made }
    {
        let fails = self.failing.as_slice().contains(&self.made);
        self.made = self.made.saturating_add(1);
        fails
    }

    /// Sets the call of this number to fail.
    pub(crate) fn fail(&mut self, call: u64) -> Result<(), NoMemory>
        ensures ok { OnOk result (self.new ≡ record self.old { failing = self.old.failing ++ call ∷ [] }) }
        ensures err { OnErr result (self.new ≡ self.old) }
    {
        Ok(self.failing.push(call)?)
    }

    /// Lets each call move at most so many bytes, at least one.
    pub(crate) fn shorten(&mut self, most: usize)
        requires { 0 < most }
        ensures { self.new ≡ record self.old { most = Some most } }
    {
        self.most = Some(most);
    }

    /// How many of so many bytes one call may move.
    pub(crate) fn within(&self, wanted: usize) -> usize
        ensures bound { result ≤ wanted }
        ensures short { IsShort self.now result }
        ensures some { 0 < wanted → 0 < result }
    {
        match self.most {
            Some(most) => wanted.min(most),
            None => wanted,
        }
    }
}
