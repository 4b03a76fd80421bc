//! What is asked of a file space, and what its calls answer.
ghost use Rattle.std.specs.Prelude.{◌≡◌, ◌<◌, ℕ, List, length, take, IfOk, OnOk, OnErr};
ghost use Rattle.cq_space.specs.Answering.{HasAnswered};
ghost use Rattle.cq_space.specs.Call.{Call};
ghost use Rattle.cq_space.specs.Failing.{Lasts};
ghost use Rattle.cq_space.specs.Space.{Space, Closed, IsReading, IsWriting, Finds, ReadsOn, BeginsWriting, Appends, Closes};

/// A call met a fault. The count of faults of the object that answers it rose in that call.
#[derive(Clone, Copy, Debug, PartialEq, Eq)]
pub struct Failed;

/// Names with bytes, of which one at a time is read or written.
///
/// What clauses see of a file space is its `space`, which has three parts.
///
/// - The mode: closed, reading a name of which some bytes are left, or writing a name. Reading and
///   writing begin and end closed, so no two names are open at once. The name is told in any case, the
///   bytes that are left where contents are.
/// - The told contents: the bytes of each name that there is. An implementation over the system's
///   files tells none, and a clause on contents then says nothing. Only the
///   name that is being written gets other bytes.
/// - The count of faults, which rises in exactly the calls that fail. Every [`Failed`] comes only where
///   the count rose in that call: it is greater than before, or it stands at 2^64 - 1, since every
///   implementation keeps it in a `u64` that stays at its last value. A call that does not fail leaves
///   the count as it was.
///
/// An implementation may promise more, by the members `may_fail`, `may_pass`, `may_move`, `gives`, `keeps`,
/// `unbegun`, `begins`, `counts` and `leaves`. Files that fail only where a test sets them to fail are an example.
///
/// Only `start_write` begins a writing, and it alone need not leave the files `unbegun`. So a call that leaves any file
/// space unbegun, whichever it is, begins no writing.
pub trait Files {
    /// The mode, the told contents and the count of faults.
    ghost space: { Self → Space };

    /// What has to be so where this call fails, from before it to after it.
    ghost may_fail: { Call → Self → Self → Type 0 } = { λ _ _ _. Unit {0} };

    /// What has to be so before a call that does not fail.
    ghost may_pass: { Self → Type 0 } = { λ _. Unit {0} };

    /// What has to be so before a read or a write that moves so many bytes.
    ghost may_move: { Self → ℕ → Type 0 } = { λ _ _. Unit {0} };

    /// What has to be so of the bytes that a read puts, from before it to after it.
    ghost gives: { Self → List ℕ → Self → Type 0 } = { λ _ _ _. Unit {0} };

    /// What is beside the meaning and stays as it was, from before a call to after it.
    ghost keeps: { Self → Self → Type 0 } = { λ _ _. Unit {0} };

    /// What stays beside the meaning where no writing is begun: all that `keeps` has, or more.
    ghost unbegun: { Self → Self → Type 0 } = { λ _ _. Unit {0} };

    /// What the call that begins a writing moves on beside the meaning, also where it fails.
    ghost begins: { Self → Self → Type 0 } = { λ _ _. Unit {0} };

    /// What each call that can fail moves on beside the meaning, from before it to after it.
    ghost counts: { Self → Self → Type 0 } = { λ _ _. Unit {0} };

    /// What the one call that cannot fail leaves beside the meaning, from before it to after it.
    ghost leaves: { Self → Self → Type 0 } = { λ _ _. Unit {0} };

    /// Begins to read a name from its first byte. The mode has to be closed.
    ///
    /// `Ok(true)`: the mode is reading, and all the bytes of the name are left. Where contents are told
    /// they have the name. `Ok(false)`: there is no such name, which only told contents that lack it can answer; the
    /// mode stays closed, and no fault is counted. `Failed`: the mode is closed. Contents are as before in every case.
    fn start_read(&mut self, name: &str) -> Result<bool, Failed>
        requires { (space self.old).mode ≡ Closed }
        ensures found { IfOk result (Finds (space self.old) (space self.new) name.now) }
        ensures err { OnErr result ((space self.new).mode ≡ Closed) }
        ensures told { (space self.new).told ≡ (space self.old).told }
        ensures answered { HasAnswered space (Call.StartRead name.now) may_fail may_pass counts unbegun
            self.old self.new result };

    /// Reads on, into the front of `buf`. The mode has to be reading, and `buf` not empty.
    ///
    /// `Ok(count)`: so many bytes, at most the length of `buf`, stand at its front, and the mode is reading.
    /// Told contents have them next in that name, and answer 0 where none of its bytes are left and nowhere else.
    /// `Failed`: the mode is closed. Contents are as before in both cases.
    fn read(&mut self, buf: &mut [u8]) -> Result<usize, Failed>
        requires mode { IsReading (space self.old).mode }
        requires room { 0 < length buf.old }
        ensures next { IfOk result (ReadsOn (space self.old) (space self.new) buf.new) }
        ensures err { OnErr result ((space self.new).mode ≡ Closed) }
        ensures told { (space self.new).told ≡ (space self.old).told }
        ensures moved { IfOk result (may_move self.old) }
        ensures given { IfOk result (λ count. gives self.old (take count buf.new) self.new) }
        ensures answered { HasAnswered space Call.Read may_fail may_pass counts unbegun
            self.old self.new result };

    /// Ends reading, at the name's end or before it. The mode has to be reading. The mode is closed
    /// afterwards, and contents are as before.
    fn end_read(&mut self)
        requires { IsReading (space self.old).mode }
        ensures closed { Closes (space self.old) (space self.new) }
        ensures uncounted { (space self.new).faults ≡ (space self.old).faults }
        ensures left { leaves self.old self.new }
        ensures kept { unbegun self.old self.new };

    /// Begins to write a name, with no bytes. The mode has to be closed.
    ///
    /// `Ok`: the mode is writing the name, and its bytes are empty, whatever they were. `Failed`: the
    /// mode is closed, and contents are as before.
    fn start_write(&mut self, name: &str) -> Result<(), Failed>
        requires { (space self.old).mode ≡ Closed }
        ensures ok { OnOk result (BeginsWriting (space self.old) (space self.new) name.now) }
        ensures err { OnErr result (Closes (space self.old) (space self.new)) }
        ensures begun { begins self.old self.new }
        ensures answered { HasAnswered space (Call.StartWrite name.now) may_fail may_pass counts keeps
            self.old self.new result };

    /// Writes on, from the front of `bytes`. The mode has to be writing, and `bytes` not empty.
    ///
    /// `Ok(count)`: the first `count` of `bytes`, at least one, were appended to the name's bytes, and
    /// the mode is as before. `Failed`: the mode is closed, and contents are as before.
    fn write(&mut self, bytes: &[u8]) -> Result<usize, Failed>
        requires mode { IsWriting (space self.old).mode }
        requires some { 0 < length bytes.now }
        ensures ok { IfOk result (Appends (space self.old) (space self.new) bytes.now) }
        ensures err { OnErr result (Closes (space self.old) (space self.new)) }
        ensures moved { IfOk result (may_move self.old) }
        ensures kept { unbegun self.old self.new }
        ensures answered { HasAnswered space Call.Write may_fail may_pass counts keeps
            self.old self.new result };

    /// Ends writing. The mode has to be writing. The mode is closed and contents are as before,
    /// whichever the answer. `Failed` says that the bytes may not have reached the disk.
    fn finish(&mut self) -> Result<(), Failed>
        requires { IsWriting (space self.old).mode }
        ensures closed { Closes (space self.old) (space self.new) }
        ensures kept { unbegun self.old self.new }
        ensures answered { HasAnswered space Call.Finish may_fail may_pass counts keeps
            self.old self.new result };

    /// What stays through each of two calls stays through both.
    ghost lasts: { Lasts keeps };

    /// So does what stays where no writing is begun.
    ghost lasts_unbegun: { Lasts unbegun };

    /// Where no writing is begun all stays that stays in any case.
    ghost unbegun_keeps: { (s t : Self) → unbegun s t → keeps s t };
}
