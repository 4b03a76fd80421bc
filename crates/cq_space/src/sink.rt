//! What is asked of a sink.
ghost use Rattle.std.specs.Prelude.{◌≡◌, ◌<◌, ℕ, List, Option, length, IfOk, OnErr};
ghost use Rattle.cq_space.specs.Causes.{HasCause};
ghost use Rattle.cq_space.specs.Failing.{Lasts};
ghost use Rattle.cq_space.specs.Taken.{Takes};

use crate::Failed;

/// What takes bytes one after another, as standard output does.
///
/// Clauses see the bytes that it has taken, where it tells them: a sink over the system tells none. It
/// has no mode. Its count of faults is that of [`Files`](crate::Files): it rises in exactly the
/// calls that fail.
pub trait Sink {
    /// The bytes taken so far, where they are told.
    ghost taken: { Self → Option (List ℕ) };

    /// How often a call has failed.
    ghost faults: { Self → ℕ };

    /// What has to be so where a call fails, from before it to after it.
    ghost may_fail: { Self → Self → Type 0 } = { λ _ _. Unit {0} };

    /// What has to be so before a write that moves so many bytes.
    ghost may_move: { Self → ℕ → Type 0 } = { λ _ _. Unit {0} };

    /// What is beside the meaning and stays as it was, from before a call to after it.
    ghost keeps: { Self → Self → Type 0 } = { λ _ _. Unit {0} };

    /// Writes on, from the front of `bytes`, which are not empty.
    ///
    /// `Ok(count)`: the first `count` of `bytes`, at least one, were taken. `Failed`: what was taken is
    /// as before.
    fn write(&mut self, bytes: &[u8]) -> Result<usize, Failed>
        requires { 0 < length bytes.now }
        ensures ok { IfOk result (Takes (taken self.old) (taken self.new) bytes.now) }
        ensures same { OnErr result (taken self.new ≡ taken self.old) }
        ensures cause { HasCause (faults self.old) (faults self.new) result }
        ensures why { OnErr result (may_fail self.old self.new) }
        ensures moved { IfOk result (may_move self.old) }
        ensures kept { keeps self.old self.new };

    /// What stays through each of two calls stays through both.
    ghost lasts: { Lasts keeps };
}
