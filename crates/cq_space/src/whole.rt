//! Whole reads and writes over any file space, and whole puts into any sink.
ghost use Rattle.std.specs.Prelude.{◌≡◌, ◌≤◌, ◌+◌, ℕ, OnErr, IfOk, IsErrOf};
ghost use Rattle.cq_base.specs.Limits.{longest_file};
ghost use Rattle.cq_space.specs.Failing.{Fails, FailsTaking, Reads, Writes};
ghost use Rattle.cq_space.specs.Pieces.{BreaksOff, TakesAll, TakesSoMany};
ghost use Rattle.cq_space.specs.Space.{Closed};
ghost use Rattle.cq_space.specs.Whole.{ReadsWhole, WritesWhole, PutsAll};

use crate::{Failed, Files, Sink};
use std::alloc::Global;

/// How many bytes are asked for at once.
const PIECE: usize = 65_536;

/// Why a name was not read whole.
#[derive(Clone, Copy, Debug, PartialEq, Eq)]
pub enum ReadRefusal {
    /// There is no such name.
    Missing,
    /// The file space met a fault, and counted it.
    Fault,
    /// The name has more bytes than the limit.
    Long {
        /// The limit, in bytes.
        limit: u64,
    },
    /// There was no memory for the bytes.
    NoMemory,
}

/// What was to be written was not written whole: the file space or the sink met a fault, and counted
/// it.
#[derive(Clone, Copy, Debug, PartialEq, Eq)]
pub struct WriteFault;

/// Reads a name whole, if it has at most `limit` bytes. The mode has to be closed, and `limit` at most
/// 2^28.
///
/// `Ok` has all the bytes of the name. `Missing` comes exactly where `start_read` answered false, which told contents
/// that lack the name alone can do; `Fault` exactly where the last call failed, which was `start_read`, or a `read`
/// before which no more than `limit` bytes were taken: the count of faults rose in that call, and with every other
/// answer it is as before; `Long` exactly where `limit + 1` bytes were taken and there was memory for them, so only
/// where the name has more than `limit`. After every answer the mode is closed, contents are as
/// before, and no writing was begun.
///
/// Also where no contents are told, the bytes of `Ok` are those that the reads of this name gave, one
/// after another, until one gave none; and `Long` comes only where they gave `limit + 1` in all. What a
/// read gave is told by the member `gives`. Files may leave it open, as those of the system do: of these
/// alone it is so of any bytes.
pub fn read_whole<F: Files>(
    alloc: Global,
    files: &mut F,
    name: &str,
    limit: u64,
) -> Result<Vec<u8>, ReadRefusal>
    requires closed { (F.space files.old).mode ≡ Closed }
    requires limit { limit ≤ longest_file }
    ensures whole { ReadsWhole (F.space files.old) (F.space files.new) name.now limit result }
    ensures why { IsErrOf result ReadRefusal.Fault → Fails F.space F.may_fail F.unbegun
        (Reads name.now) files.old files.new }
    ensures broken { IsErrOf result ReadRefusal.Fault →
        BreaksOff F.space F.may_fail F.may_pass F.may_move F.gives F.counts F.leaves F.unbegun
        name.now limit files.old files.new }
    ensures taken { (n : ℕ) → IsErrOf result (ReadRefusal.Long n) →
        TakesSoMany F.space F.may_fail F.may_pass F.may_move F.gives F.counts F.leaves F.unbegun
        name.now (limit + 1) files.old files.new }
    ensures all { IfOk result (λ v.
        TakesAll F.space F.may_fail F.may_pass F.may_move F.gives F.counts F.leaves F.unbegun
        name.now v.items files.old files.new) }
    ensures kept { F.unbegun files.old files.new }
{
    match files.start_read(name) {
        Ok(true) => {}
        Ok(false) => return Err(ReadRefusal::Missing),
        Err(Failed) => return Err(ReadRefusal::Fault),
    }
    let mut bytes = Vec::new(alloc);
    let mut buf = [0u8; PIECE];
    'pieces: while bytes.len() as u64 <= limit {
        let room = limit + 1 - bytes.len() as u64;
        let most = room.min(PIECE as u64) as usize;
        let window = &mut buf[..most];
        let count = match files.read(window) {
            Ok(0) => {
                files.end_read();
                return Ok(bytes);
            }
            Ok(count) => count,
            Err(Failed) => return Err(ReadRefusal::Fault),
        };
        if bytes.extend_from_slice(&window[..count]).is_err() {
            files.end_read();
            return Err(ReadRefusal::NoMemory);
        }
    }
    files.end_read();
    Err(ReadRefusal::Long { limit })
}

/// Writes a name whole. The mode has to be closed. It takes no memory.
///
/// After `Ok` the name's bytes are `bytes`. A fault is counted in this call, by one that writes this name, and its
/// bytes then are those from before, or the front part of `bytes`. Whatever the answer, nothing is open then and no
/// other name has changed.
pub fn write_whole<F: Files>(files: &mut F, name: &str, bytes: &[u8]) -> Result<(), WriteFault>
    requires { (F.space files.old).mode ≡ Closed }
    ensures whole { WritesWhole (F.space files.old) (F.space files.new) name.now bytes.now result }
    ensures why { OnErr result (Fails F.space F.may_fail F.keeps (Writes name.now) files.old files.new) }
    ensures kept { F.keeps files.old files.new }
{
    if let Err(Failed) = files.start_write(name) {
        return Err(WriteFault);
    }
    let mut written = 0;
    while written < bytes.len() {
        match files.write(&bytes[written..]) {
            Ok(count) => written += count,
            Err(Failed) => return Err(WriteFault),
        }
    }
    match files.finish() {
        Ok(()) => Ok(()),
        Err(Failed) => Err(WriteFault),
    }
}

/// Puts all the bytes into the sink. It takes no memory.
///
/// After `Ok` they were appended to what the sink has taken. A fault is counted in this call, and then a prefix of
/// them was.
#[tactic(auto, using(crate::proofs::Replaced::put_on))]
pub fn put_all<S: Sink>(sink: &mut S, bytes: &[u8]) -> Result<(), WriteFault>
    ensures all { PutsAll (S.taken sink.old) (S.taken sink.new) (S.faults sink.old)
        (S.faults sink.new) bytes.now result }
    ensures why { OnErr result (FailsTaking S.taken S.faults S.may_fail S.keeps sink.old sink.new) }
    ensures kept { S.keeps sink.old sink.new }
{
    let mut taken = 0;
    while taken < bytes.len() {
        match sink.write(&bytes[taken..]) {
            Ok(count) => taken += count,
            Err(Failed) => return Err(WriteFault),
        }
    }
    Ok(())
}
