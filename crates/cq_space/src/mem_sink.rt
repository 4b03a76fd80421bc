//! A sink in memory, which a test can set to fail.
ghost use Rattle.std.specs.Prelude.{◌≡◌, [], None, Some};
ghost use Rattle.cq_space.specs.Lasting.{cut_lasts};
ghost use Rattle.cq_space.specs.MemTaken.{MayFail, MayMove, KeepsCut};

use crate::cut::before_cut;
use crate::fault::raise;
use crate::{Failed, Sink};
use std::alloc::Global;
use std::marker::Model;

/// A sink in memory, for tests: it tells what it has taken, and fails where a test set it to fail.
///
/// Clauses see the bytes taken, the cut, the count of faults and the count of those that came from want
/// of memory. A write answers [`Failed`] only at the cut, or where [`MemSink::starved`] was raised by
/// one in it, or stands at its last value, and counts one fault then; it never goes past the cut and never
/// succeeds there.
#[derive(Drop)]
pub struct MemSink {
    bytes: Vec<u8>,
    cut: Option<u64>,
    faults: u64,
    starved: u64,
}

impl Model for MemSink {
    ghost use Rattle.cq_space.specs.MemTaken.{MemTaken};

    ghost Value = { MemTaken };

    ghost view = { λ s. record { bytes = s.bytes.items; cut = s.cut; faults = s.faults; starved = s.starved } };
}

impl MemSink {
    /// A sink that has taken nothing, with no cut and no fault.
    pub fn new(alloc: Global) -> Self
        ensures bytes { result.bytes ≡ [] }
        ensures cut { result.cut ≡ None }
        ensures faults { result.faults ≡ 0 }
        ensures starved { result.starved ≡ 0 }
    {
        MemSink {
            bytes: Vec::new(alloc),
            cut: None,
            faults: 0,
            starved: 0,
        }
    }

    /// The bytes taken.
    pub fn bytes(&self) -> &[u8]
        ensures { result.now ≡ self.now.bytes }
    {
        self.bytes.as_slice()
    }

    /// Cuts writing at `after` bytes, counted from the first that was ever taken: a write does not go
    /// past them, and the next write there fails. The newest cut counts.
    pub fn fail_after(&mut self, after: u64)
        ensures { self.new ≡ record self.old { cut = Some after } }
    {
        self.cut = Some(after);
    }

    /// How many of the faults came from want of memory. At 2^64 - 1 it stays.
    pub fn starved(&self) -> u64
        ensures { result ≡ self.now.starved }
    {
        self.starved
    }
}

impl Sink for MemSink {
    ghost taken = { λ s. Some s.bytes };

    ghost faults = { λ s. s.faults };

    ghost may_fail = { MayFail };

    ghost may_move = { MayMove };

    ghost keeps = { KeepsCut };

    ghost lasts = { cut_lasts };

    fn write(&mut self, bytes: &[u8]) -> Result<usize, Failed> {
        let Some(count) = before_cut(self.cut, self.bytes.len(), bytes.len()) else {
            raise(&mut self.faults);
            return Err(Failed);
        };
        match self.bytes.extend_from_slice(&bytes[..count]) {
            Ok(()) => Ok(count),
            Err(_) => {
                raise(&mut self.faults);
                raise(&mut self.starved);
                Err(Failed)
            }
        }
    }
}
