//! Readers that run, each in a thread of its own. What is started here is joined: it has no other way out.
use cq_stream::{Done, DoneOf, Intake};
use std::thread;
use std::thread::{PromisedHandle, SpawnError, Threads};

/// A reader that runs in a thread. Unlike the handle in it, it cannot be dropped, and its field is private: `join` is
/// the one call that uses it up.
pub struct Running {
    handle: PromisedHandle<Done, DoneOf>,
}

impl Running {
    ghost use Rattle.std.specs.Prelude.{◌≡◌, IfErr, IfOk};
    ghost use Rattle.cq_stream.specs.declared.outcome.Done.{Done};
    ghost use Rattle.cq_stream.specs.Rings.{IsPairOf};
    ghost use Rattle.cq_stream.specs.Stream.{IsDoneOf, promised};
    ghost use Rattle.cq_run.specs.Running.{IsEmptied, reader_of};

    /// Runs the reader of this promise in a thread, by a closure that keeps the promise. Where there is no thread the
    /// closure comes back.
    pub fn start<R: Threads, F: FnOnce() -> Done + Send + 'static>(
        rt: &R,
        promise: DoneOf,
        run: F,
    ) -> Result<Running, SpawnError<F>>
        requires runs { F.pre run }
        requires keeps { (done : Done) → F.post run done → IsDoneOf (promised promise) done }
        ensures ok { IfOk result (λ running. reader_of running ≡ promised promise) }
        ensures err { IfErr result (λ refused. refused.value ≡ run) }
    {
        match thread::spawn_with(rt, promise, run) {
            Ok(handle) => Ok(Running { handle }),
            Err(refused) => Err(refused),
        }
    }

    /// What the reader leaves. All items were taken from its intake, which is lent for the clauses alone, so that it
    /// waits for no room.
    pub fn join<R: Threads>(self, rt: &R, _intake: &Intake) -> Done
        requires pair { IsPairOf (reader_of self) _intake.now }
        requires emptied { IsEmptied _intake.now }
        ensures { IsDoneOf (reader_of self) result }
    {
        let Running { handle } = self;
        handle.join(rt)
    }
}
