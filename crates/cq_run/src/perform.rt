//! Writing what is planned.
ghost use Rattle.std.specs.Prelude.{◌≡◌, IfErr, OnOk, Some};
ghost use Rattle.cq_run.specs.Terms.{EndsIn, Fails, FailsTaking, IsJudged, Pace, Reader, WhereHalted, Writes, Closed, world, IsDone, IsCut, IsCutAtFile, all_replaced};

use crate::plan::{Work, Write};
use crate::{Command, Halt, Stop, Unwritten};
use cq_base::Name;
use cq_space::{Files, Sink, WriteFault, put_all, write_whole};

/// Performs what judging a command came to, and tells how the command ends. It leaves the file space closed, and takes
/// no memory.
#[tactic(auto, using(crate::proofs::Reached::exit_is))]
pub fn conclude<F: Files, O: Sink>(
    files: &mut F,
    out: &mut O,
    judged: Result<Work, Halt>,
) -> Result<(), Stop>
    requires { (F.space files.old).mode ≡ Closed }
    ensures ends { (pace : Pace) (command : Command) (start : F) (r : Reader) →
        IsJudged F.space F.may_fail F.unbegun pace command start files.old judged →
        EndsIn F.space F.may_fail F.keeps F.unbegun O.taken O.faults O.may_fail O.keeps
        pace r (Some command) start files.new out.old out.new result }
    ensures unbegun { (start : F) → F.unbegun start files.old → WhereHalted result (F.unbegun start files.new) }
    ensures closed { (F.space files.new).mode ≡ Closed }
{
    match judged {
        Ok(work) => Ok(perform(files, out, work)?),
        Err(halt) => Err(Stop::from(halt)),
    }
}

// Writes the names in order, and then the text on standard output. It stops at the first fault, and
// leaves the file space closed. It takes no memory.
fn perform<F: Files, O: Sink>(files: &mut F, out: &mut O, work: Work) -> Result<(), Unwritten>
    requires { (F.space files.old).mode ≡ Closed }
    ensures done { OnOk result (IsDone work (world F.space O.taken O.faults files.old out.old)
        (world F.space O.taken O.faults files.new out.new)) }
    ensures cut { IfErr result (IsCut (λ name. Fails F.space F.may_fail F.keeps (Writes name) files.old files.new)
        (FailsTaking O.taken O.faults O.may_fail O.keeps out.old out.new) work
        (world F.space O.taken O.faults files.old out.old) (world F.space O.taken O.faults files.new out.new)) }
    ensures closed { (F.space files.new).mode ≡ Closed }
{
    let (writes, text) = work.into_parts();
    if let Err(name) = write_all(files, writes) {
        return Err(Unwritten::File { name });
    }
    match put_all(out, &text) {
        Ok(()) => Ok(()),
        Err(WriteFault) => Err(Unwritten::Output),
    }
}

// Writes the names in order. The error is the name at which it stopped.
fn write_all<F: Files>(files: &mut F, mut writes: Vec<Write>) -> Result<(), Name>
    requires { (F.space files.old).mode ≡ Closed }
    ensures done { OnOk result ((F.space files.new).told ≡ all_replaced writes.items (F.space files.old).told) }
    ensures uncounted { OnOk result ((F.space files.new).faults ≡ (F.space files.old).faults) }
    ensures cut { IfErr result (λ name. IsCutAtFile writes.items name (F.space files.old) (F.space files.new)) }
    ensures why { IfErr result (λ name. Fails F.space F.may_fail F.keeps (Writes name) files.old files.new) }
    ensures closed { (F.space files.new).mode ≡ Closed }
{
    while !writes.is_empty() {
        let write = writes.remove(0);
        if let Err(WriteFault) = write_whole(files, write.name(), write.bytes()) {
            return Err(write.into_name());
        }
    }
    Ok(())
}
