//! Files in memory, which a test can set to fail.
ghost use Rattle.std.specs.Prelude.{◌≡◌, ◌+◌, ◌-◌, ◌<◌, ◌≤◌, ◌^◌, ◌++◌, ◌∷◌, [], None, Some, min, OnOk, OnErr, MatchOption};
ghost use Rattle.std.specs.FinMap.{insert, get};
ghost use Rattle.cq_space.specs.Lasting.{cuts_last, unbegun_lasts};
ghost use Rattle.cq_space.specs.Space.{Closed};
ghost use Rattle.cq_space.specs.MemSpace.{no_files, told_space, IsCounted, IsUncounted, MayFail, MayMove, MayPass, KeepsCuts, IsUnbegun, HasBegun};

use crate::cut::before_cut;
use crate::entries::{
    Entry, State, append, cut_reading, cut_writing, find, held, place_of, put_bytes,
};
use crate::fault::raise;
use crate::tally::Tally;
use crate::{Failed, Files};
use cq_base::NoMemory;
use std::alloc::Global;
use std::marker::Model;

/// Files in memory, for tests: they tell their contents, and fail where a test set them to fail.
///
/// Clauses see the mode, the contents, where reading and writing each name are cut, the count of faults,
/// the count of those that came from want of memory, how often a writing was to begin, and the numbered
/// calls. A call of [`Files`] answers [`Failed`] only where its number was set to fail, at a cut, or where
/// [`MemFiles::starved`] was raised by one in it, or stands at its last value, and counts one fault then.
/// A call whose number was set to fail always does; a read or a write never goes past a cut, never
/// succeeds at one, and never moves more bytes than [`MemFiles::short`] allows. `start_read` and `read`
/// take no memory. The calls below are none of `Files`, and leave the mode as it was.
#[derive(Drop)]
pub struct MemFiles {
    alloc: Global,
    entries: Vec<Entry>,
    state: State,
    faults: u64,
    starved: u64,
    // No code reads it: clauses tell by it how often a writing was to begin. At its last value it stays.
    begun: u64,
    calls: Tally,
}

impl Model for MemFiles {
    ghost use Rattle.cq_space.specs.MemSpace.{MemSpace};

    ghost Value = { MemSpace };

    ghost use Rattle.std.specs.Coded.{codes};
    ghost use Rattle.cq_space.specs.Space.{contents_code};
    ghost use Rattle.cq_space.specs.MemSpace.{cuts_code};

    ghost coded = { Prim.hlevel (codes, contents_code, cuts_code) };

    ghost use Rattle.cq_space.specs.MemFiles.{mem_space, IsSound};

    ghost view = { mem_space };

    ghost invariant = { IsSound };
}

impl MemFiles {
    /// Files without a name: closed, with no cut and no fault.
    pub fn new(alloc: Global) -> Self
        ensures { result ≡ no_files }
    {
        MemFiles {
            alloc,
            entries: Vec::new(alloc),
            state: State::Shut,
            faults: 0,
            starved: 0,
            begun: 0,
            calls: Tally::new(alloc),
        }
    }

    /// Gives the name these bytes, whether there was such a name or not. The mode has to be closed. All
    /// else is as before; after `NoMemory` everything is.
    #[tactic(auto, using(crate::proofs::InMemory::bytes_are_set))]
    pub fn set(&mut self, name: &str, bytes: &[u8]) -> Result<(), NoMemory>
        requires { self.old.mode ≡ Closed }
        ensures ok { OnOk result (self.new ≡ record self.old
            { contents = insert self.old.contents name.now bytes.now }) }
        ensures err { OnErr result (self.new ≡ self.old) }
    {
        let bytes = bytes.to_vec(self.alloc)?;
        let at = place_of(self.alloc, &mut self.entries, name)?;
        put_bytes(&mut self.entries, at, bytes);
        Ok(())
    }

    /// The bytes of the name, and `None` exactly where there is no such name.
    pub fn bytes(&self, name: &str) -> Option<&[u8]>
        ensures { MatchOption result (get self.now.contents name.now ≡ None)
            (λ bytes. get self.now.contents name.now ≡ Some bytes.now) }
    {
        match find(&self.entries, name) {
            Some(at) => match &self.entries[at].bytes {
                Some(bytes) => Some(bytes.as_slice()),
                None => None,
            },
            None => None,
        }
    }

    /// Cuts reading the name at `after` bytes: a read does not go past them, and the next read there
    /// fails. It counts from then on and for every later reading of the name; the newest cut of a name
    /// counts. There need be no such name. After `NoMemory` everything is as before.
    #[tactic(auto, using(crate::proofs::InMemory::reading_is_cut))]
    pub fn fail_read(&mut self, name: &str, after: u64) -> Result<(), NoMemory>
        ensures ok { OnOk result (self.new ≡ record self.old { read_cuts = insert self.old.read_cuts name.now after }) }
        ensures err { OnErr result (self.new ≡ self.old) }
    {
        let at = place_of(self.alloc, &mut self.entries, name)?;
        cut_reading(&mut self.entries, at, after);
        Ok(())
    }

    /// Cuts writing the name at `after` bytes: a write does not go past them, and the next write there
    /// fails. It counts as the cut of [`MemFiles::fail_read`] does. After `NoMemory` everything is as
    /// before.
    #[tactic(auto, using(crate::proofs::InMemory::writing_is_cut))]
    pub fn fail_write(&mut self, name: &str, after: u64) -> Result<(), NoMemory>
        ensures ok { OnOk result (self.new ≡ record self.old
            { write_cuts = insert self.old.write_cuts name.now after }) }
        ensures err { OnErr result (self.new ≡ self.old) }
    {
        let at = place_of(self.alloc, &mut self.entries, name)?;
        cut_writing(&mut self.entries, at, after);
        Ok(())
    }

    /// Sets the call of this number to fail. All calls of [`Files`] but `end_read` are numbered, from 0 on
    /// and from the first that was ever made. After `NoMemory` everything is as before.
    pub fn fail_call(&mut self, call: u64) -> Result<(), NoMemory>
        ensures ok { OnOk result (self.new ≡ record self.old
            { calls = record self.old.calls { failing = self.old.calls.failing ++ call ∷ [] } }) }
        ensures err { OnErr result (self.new ≡ self.old) }
    {
        self.calls.fail(call)
    }

    /// From now on each read and each write moves at most `most` bytes, which are at least one.
    pub fn short(&mut self, most: usize)
        requires { 0 < most }
        ensures { self.new ≡ record self.old { calls = record self.old.calls { most = Some most } } }
    {
        self.calls.shorten(most);
    }

    /// How many of the faults came from want of memory. At 2^64 - 1 it stays.
    pub fn starved(&self) -> u64
        ensures { result ≡ self.now.starved }
    {
        self.starved
    }

    fn fault(&mut self) -> Failed
        ensures later { self.old.faults ≤ self.new.faults }
        ensures closed { self.new ≡ record self.old { mode = Closed; faults = min (self.old.faults + 1) (2 ^ 64 - 1) } }
    {
        self.state = State::Shut;
        raise(&mut self.faults);
        Failed
    }

    fn starve(&mut self) -> Failed
        ensures later { self.old.faults ≤ self.new.faults }
        ensures starved { self.old.starved ≤ self.new.starved }
        ensures closed { self.new ≡ record self.old {
          mode = Closed;
          faults = min (self.old.faults + 1) (2 ^ 64 - 1);
          starved = min (self.old.starved + 1) (2 ^ 64 - 1);
        } }
    {
        raise(&mut self.starved);
        self.fault()
    }
}

impl Files for MemFiles {
    ghost space = { told_space };

    ghost may_fail = { MayFail };

    ghost may_pass = { MayPass };

    ghost may_move = { MayMove };

    ghost keeps = { KeepsCuts };

    ghost unbegun = { IsUnbegun };

    ghost begins = { HasBegun };

    ghost counts = { IsCounted };

    ghost leaves = { IsUncounted };

    ghost lasts = { cuts_last };

    ghost lasts_unbegun = { unbegun_lasts };

    ghost unbegun_keeps = { λ _ _ h. h.kept };

    fn start_read(&mut self, name: &str) -> Result<bool, Failed> {
        if self.calls.next() {
            return Err(self.fault());
        }
        match find(&self.entries, name) {
            Some(at) if self.entries[at].bytes.is_some() => {
                self.state = State::Reads { at, place: 0 };
                Ok(true)
            }
            _ => Ok(false),
        }
    }

    fn read(&mut self, buf: &mut [u8]) -> Result<usize, Failed> {
        if self.calls.next() {
            return Err(self.fault());
        }
        let State::Reads { at, place } = self.state else {
            unreachable!()
        };
        let entry = &self.entries[at];
        match before_cut(entry.read_cut, place, self.calls.within(buf.len())) {
            Some(most) => {
                let left = &held(entry)[place..];
                let count = left.len().min(most);
                buf[..count].copy_from_slice(&left[..count]);
                self.state = State::Reads {
                    at,
                    place: place + count,
                };
                Ok(count)
            }
            None => Err(self.fault()),
        }
    }

    fn end_read(&mut self) {
        self.state = State::Shut;
    }

    fn start_write(&mut self, name: &str) -> Result<(), Failed> {
        raise(&mut self.begun);
        if self.calls.next() {
            return Err(self.fault());
        }
        match place_of(self.alloc, &mut self.entries, name) {
            Ok(at) => {
                put_bytes(&mut self.entries, at, Vec::new(self.alloc));
                self.state = State::Writes { at };
                Ok(())
            }
            Err(NoMemory) => Err(self.starve()),
        }
    }

    fn write(&mut self, bytes: &[u8]) -> Result<usize, Failed> {
        if self.calls.next() {
            return Err(self.fault());
        }
        let State::Writes { at } = self.state else {
            unreachable!()
        };
        let entry = &self.entries[at];
        match before_cut(
            entry.write_cut,
            held(entry).len(),
            self.calls.within(bytes.len()),
        ) {
            Some(count) => match append(&mut self.entries, at, &bytes[..count]) {
                Ok(()) => Ok(count),
                Err(NoMemory) => Err(self.starve()),
            },
            None => Err(self.fault()),
        }
    }

    fn finish(&mut self) -> Result<(), Failed> {
        if self.calls.next() {
            return Err(self.fault());
        }
        self.state = State::Shut;
        Ok(())
    }
}
