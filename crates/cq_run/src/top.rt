//! The top call.
ghost use Rattle.std.specs.Prelude.{◌≡◌, ◌≢◌, ◌↔◌, None, Some, IfSome, map, string_bytes};
ghost use Rattle.cq_run.specs.Terms.{Fails, FailsTaking, Reads, Writes, Closed, command_for, Emulates, InTurn, Plan, IsWithinRange, known_by, Reader, verdict, IsDone, world, taken_by, EndsIn, WhereHalted, status_of, Tells, Answers, StatusCauses};

use crate::judge::judge;
use crate::perform::conclude;
use crate::say::say;
use crate::{Command, Halt, Refusal, Stop, command_of};
use cq_base::Status;
use cq_crew::Gate;
use cq_space::{Files, Sink};
use std::alloc::Global;
use std::thread::Threads;

/// Does all that the program does: it judges the words and what they name, writes what that comes to,
/// and, where it stops before that is done, tells `err` why in one line.
///
/// - `Done`: all is written, and `err` is as before.
/// - `Words`: the words are no command.
/// - `Configuration`: the configuration is refused, for the first check that does not hold.
/// - `Capture`: the capture of an input is at fault, that of the lowest input.
/// - `Tag`: a rank of the ideal run does not fit 128 bits, or one of a run that stops or goes on.
/// - `ReadFault`: the name of the line is the first to be read that is not there, or whose reading failed:
///   up to a call that reads it the count of faults of the file space was as before, and in that call it rose.
/// - `WriteFault`: the count of faults of the file space rose in a call that writes the name of the line, once
///   the files before it were whole, or that of `out` rose once all files were. The file of the line is as
///   before or has a front of its bytes, and those after it are as before.
/// - `NoMemory`: there was not the memory to keep the words of a command and what they name, or to build all that is to
///   be written.
/// - `AuditNo`: the trace or the log that is audited is wrong, and the line says what is wrong first.
/// - `State`: the state from which a run is to go on is refused, and the line says what is wrong first, or that of a
///   run that stops would be too long.
///
/// All bytes are ready before the first is written, so with every status but `Done` and `WriteFault` no
/// file is started and `out` is as before. The file space has to be closed, and is closed again. A
/// failing `err` changes no status.
///
/// The clauses hold for any reader of captures that goes by the grammar of the format and its faults. Of bytes there
/// is one answer that such a reader can give.
pub fn switch_top<R: Threads + Sync, F: Files, O: Sink, E: Sink, G: Gate>(
    rt: &R,
    alloc: Global,
    words: &[String],
    files: &mut F,
    out: &mut O,
    err: &mut E,
    gate: &G,
) -> Status
    requires { (F.space files.old).mode ≡ Closed }
    ensures answer { (r : Reader) → Answers InTurn r
        (λ name. Fails F.space F.may_fail F.unbegun (Reads name) files.old files.new)
        (λ name. Fails F.space F.may_fail F.keeps (Writes name) files.old files.new)
        (FailsTaking O.taken O.faults O.may_fail O.keeps out.old out.new) (map string_bytes words.now)
        (world F.space O.taken O.faults files.old out.old)
        (world F.space O.taken O.faults files.new out.new)
        (taken_by E.taken E.faults err.old) (taken_by E.taken E.faults err.new) result }
    ensures causes { (r : Reader) → StatusCauses InTurn (verdict r (map string_bytes words.now))
        (known_by (command_for (map string_bytes words.now)) (F.space files.old))
        (world F.space O.taken O.faults files.old out.old)
        (world F.space O.taken O.faults files.new out.new) result }

    // The headline, of `run CONFIG`, of `pass IN OUT`, of `audit CONFIG`, and of runs in parts.
    ensures headline { (r : Reader) (command : Command) → command_for (map string_bytes words.now) ≡ Some command →
        result ≡ Status.Done → IfSome (F.space files.old).told (λ m. (plan : Plan) × Emulates r command m plan
        × IsDone plan (world F.space O.taken O.faults files.old out.old)
        (world F.space O.taken O.faults files.new out.new)) }

    // Also over files that tell nothing.
    ensures no_command { (command_for (map string_bytes words.now) ≡ None) ↔ (result ≡ Status.Words) }
    // No writing is begun, as far as files tell that.
    ensures unbegun { result ≢ Status.Done → result ≢ Status.WriteFault → F.unbegun files.old files.new }
    // No name is open, whatever files tell.
    ensures closed { (F.space files.new).mode ≡ Closed }
{
    let end = run(rt, alloc, words, files, out, gate);
    answer(err, end)
}

/// The status of an end, of which the error sink is told. A sink that fails changes no status.
pub fn answer<E: Sink>(err: &mut E, end: Result<(), Stop>) -> Status
    ensures status { result ≡ status_of end }
    ensures tells { Tells end (taken_by E.taken E.faults err.old) (taken_by E.taken E.faults err.new) }
{
    match end {
        Ok(()) => Status::Done,
        Err(stop) => {
            let _ = say(err, &stop);
            stop.status()
        }
    }
}

fn run<R: Threads + Sync, F: Files, O: Sink, G: Gate>(
    rt: &R,
    alloc: Global,
    words: &[String],
    files: &mut F,
    out: &mut O,
    gate: &G,
) -> Result<(), Stop>
    requires { (F.space files.old).mode ≡ Closed }
    ensures ends { (r : Reader) → EndsIn F.space F.may_fail F.keeps F.unbegun O.taken O.faults O.may_fail O.keeps
        InTurn r (command_for (map string_bytes words.now)) files.old files.new out.old out.new result }
    ensures unbegun { WhereHalted result (F.unbegun files.old files.new) }
    ensures closed { (F.space files.new).mode ≡ Closed }
{
    match command_of(alloc, words)? {
        Some(command) => obey(rt, alloc, files, out, command, gate),
        None => Err(Stop::from(Halt::Refused {
            refusal: Refusal::Words,
        })),
    }
}

fn obey<R: Threads + Sync, F: Files, O: Sink, G: Gate>(
    rt: &R,
    alloc: Global,
    files: &mut F,
    out: &mut O,
    command: Command,
    gate: &G,
) -> Result<(), Stop>
    requires closed { (F.space files.old).mode ≡ Closed }
    requires range { IsWithinRange command }
    ensures ends { (r : Reader) → EndsIn F.space F.may_fail F.keeps F.unbegun O.taken O.faults O.may_fail O.keeps
        InTurn r (Some command) files.old files.new out.old out.new result }
    ensures unbegun { WhereHalted result (F.unbegun files.old files.new) }
    ensures closed { (F.space files.new).mode ≡ Closed }
{
    let judged = judge(rt, alloc, files, command, gate);
    conclude(files, out, judged)
}
