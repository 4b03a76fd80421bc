//! The top call that reads ahead. It is the one public function of this crate that needs `Wait`.
ghost use Rattle.std.specs.Prelude.{◌≡◌, ◌≢◌, ◌↔◌, None, Some, IfSome, map, string_bytes};
ghost use Rattle.cq_run.specs.Terms.{Fails, FailsTaking, Reads, Writes, Closed, as_run, command_for, Emulates, Ahead, pace_of, Plan, known_by, Reader, verdict, IsDone, world, taken_by, EndsIn, WhereHalted, Answers, StatusCauses};

use crate::judge::run_ahead;
use crate::perform::conclude;
use crate::top::answer;
use crate::{Command, Stop, switch_top};
use cq_base::{Name, Status};
use cq_crew::Gate;
use cq_space::{Files, Sink};
use cq_stream::Watch;
use cq_words::streamed;
use std::alloc::Global;
use std::sync::Wait;
use std::thread::Threads;

/// Does what `switch_top` does, and for `stream CONFIG` what that does for `run CONFIG`: the same verdict, files,
/// text and refusals. There each capture is decoded by a reader in a thread of its own, where one can be had, while
/// the next file is read, and every reader that was started is joined on every way out. The watch is told of each
/// that begins to send, and changes no answer.
///
/// The clauses are those of `switch_top`, where this call returns. For `stream CONFIG` they say less of the count of
/// faults of the file space: with the refusal of the capture of an input, and with want of memory, it may have risen
/// in a call that reads a name. By the code that is the file of an input behind the one that is refused or finds no
/// memory, but no clause says so.
///
/// No clause says that a reader ever gets on, or that it runs beside the caller.
pub fn stream_top<R, F: Files, O: Sink, E: Sink, G: Gate, W: Watch + 'static>(
    rt: R,
    alloc: Global,
    words: &[String],
    files: &mut F,
    out: &mut O,
    err: &mut E,
    gate: &G,
    watch: &W,
) -> Status
where
    R: Threads + Wait + Sync + Copy + Send + 'static,
    requires { (F.space files.old).mode ≡ Closed }
    ensures answer { (r : Reader) → Answers (pace_of (map string_bytes words.now)) r
        (λ name. Fails F.space F.may_fail F.unbegun (Reads name) files.old files.new)
        (λ name. Fails F.space F.may_fail F.keeps (Writes name) files.old files.new)
        (FailsTaking O.taken O.faults O.may_fail O.keeps out.old out.new) (as_run (map string_bytes words.now))
        (world F.space O.taken O.faults files.old out.old)
        (world F.space O.taken O.faults files.new out.new)
        (taken_by E.taken E.faults err.old) (taken_by E.taken E.faults err.new) result }
    ensures causes { (r : Reader) → StatusCauses (pace_of (map string_bytes words.now))
        (verdict r (as_run (map string_bytes words.now)))
        (known_by (command_for (as_run (map string_bytes words.now))) (F.space files.old))
        (world F.space O.taken O.faults files.old out.old)
        (world F.space O.taken O.faults files.new out.new) result }

    // The headline, of `run CONFIG`, of `stream CONFIG`, of `pass IN OUT`, of `audit CONFIG`, and of runs in parts.
    ensures headline { (r : Reader) (command : Command) →
        command_for (as_run (map string_bytes words.now)) ≡ Some command → result ≡ Status.Done →
        IfSome (F.space files.old).told (λ m. (plan : Plan) × Emulates r command m plan
        × IsDone plan (world F.space O.taken O.faults files.old out.old)
        (world F.space O.taken O.faults files.new out.new)) }

    // Also over files that tell nothing.
    ensures no_command { (command_for (as_run (map string_bytes words.now)) ≡ None) ↔ (result ≡ Status.Words) }
    // No writing is begun, as far as files tell that.
    ensures unbegun { result ≢ Status.Done → result ≢ Status.WriteFault → F.unbegun files.old files.new }
    // No name is open, whatever files tell.
    ensures closed { (F.space files.new).mode ≡ Closed }
{
    match streamed(words) {
        Some(config) => {
            let end = stream(rt, alloc, files, out, config, gate, watch);
            answer(err, end)
        }
        None => switch_top(&rt, alloc, words, files, out, err, gate),
    }
}

fn stream<R, F: Files, O: Sink, G: Gate, W: Watch + 'static>(
    rt: R,
    alloc: Global,
    files: &mut F,
    out: &mut O,
    config: &str,
    gate: &G,
    watch: &W,
) -> Result<(), Stop>
where
    R: Threads + Wait + Sync + Copy + Send + 'static,
    requires { (F.space files.old).mode ≡ Closed }
    ensures ends { (r : Reader) → EndsIn F.space F.may_fail F.keeps F.unbegun O.taken O.faults O.may_fail O.keeps
        Ahead r (Some (Command.Run config.now)) files.old files.new out.old out.new result }
    ensures unbegun { WhereHalted result (F.unbegun files.old files.new) }
    ensures closed { (F.space files.new).mode ≡ Closed }
{
    let name = Name::of(alloc, config)?;
    let judged = run_ahead(rt, alloc, files, name, gate, watch);
    conclude(files, out, judged)
}
