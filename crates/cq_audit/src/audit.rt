//! Whether a log of any maker is that of a stable run.
ghost use Rattle.std.specs.Prelude.{◌≡◌, ◌↔◌, ◌+◌, ◌-◌, ◌<◌, ◌≤◌, [], IfErr, IfOk, IsTrue, OnOk, length, map};
ghost use Rattle.cq_audit.specs.Terms.{end_of, IsEmptyFabric, CanBeAudited, IsNo, IsYes, AreInOrder, NoneBefore, HasRested, IsInStep, ports_in, FirstIsLeast, IsOpened, IsReady, IsStill, IsStillUntil, RunEnds, Left};

use crate::log::read_log;
use crate::refusal::AuditRefusal;
use crate::replay::Replay;
use cq_base::{NoMemory, Room, Setup, Slot, Transfer};
use cq_cells::{Coming, Schedule};
use cq_rank::Rank;
use cq_scfq::Discipline;
use cq_traffic::quiet_until;
use std::alloc::Global;

/// Checks a log of any maker, of a switch of this setup with these limits, over cells that arrive by this schedule. A
/// stable run is one in which each phase takes any stable matching. Where these bytes are the log of one, written out,
/// the answer is Ok, and for no others. The log is read first, then it is replayed phase by phase, and at the end of
/// the run no line may be left. It takes time for the slots in which a cell waits or comes or of which there is a
/// line, and none for those between them.
///
/// Each error but want of memory comes for one cause alone: see `AuditRefusal`.
pub fn audit_log(
    alloc: Global,
    setup: &Setup,
    limits: &[Option<u64>],
    schedule: &Schedule,
    log: &[u8],
) -> Result<(), AuditRefusal>
    requires { CanBeAudited setup.now limits.now schedule.now }
    ensures yes { OnOk result (IsYes setup.now limits.now schedule.now.came log.now) }
    ensures no { IfErr result (IsNo setup.now limits.now schedule.now.came log.now) }
{
    let ports = setup.kinds.as_slice().len() as u16;
    let lines = read_log(alloc, log, ports)?;
    let mut note = Room::new(alloc, 2 * ports as u64)?;
    let mut replay = replay_for(alloc, setup, limits, schedule)?;
    replay_run(&mut replay, schedule, lines.as_slice(), &mut note)
}

// The replay of a switch of this setup with these limits, before its first slot, with room for all cells that arrive by
// this schedule.
#[tactic(auto, using(crate::proofs::Slots::lengths))]
fn replay_for(
    alloc: Global,
    setup: &Setup,
    limits: &[Option<u64>],
    schedule: &Schedule,
) -> Result<Replay<Discipline>, NoMemory>
    requires { CanBeAudited setup.now limits.now schedule.now }
    ensures { IfOk result (IsOpened setup.now limits.now schedule.now.came) }
{
    let ranks = Discipline::all(alloc, setup)?;
    Replay::new(alloc, ranks, limits, schedule)
}

// Whether no cell arrives any more and none waits.
fn is_over<R: Rank>(replay: &Replay<R>, schedule: &Schedule, slot: Slot) -> bool
    ensures { IsTrue result ↔ ((end_of schedule.now.came ≤ slot) × IsEmptyFabric replay.now.fabric.state) }
{
    schedule.end() <= slot && replay.empty()
}

// The slot up to which no cell arrives and of which there is no line: the lesser of those of the next arrival and of
// the next line, or this one where no cell arrives any more. The next arrival is looked for only where the next line is
// not of this slot.
fn still_until(schedule: &Schedule, lines: &[Transfer], slot: Slot) -> Slot
    requires least { FirstIsLeast lines.now }
    requires none_before { NoneBefore slot 1 lines.now }
    ensures { IsStillUntil schedule.now.came lines.now slot result }
{
    match lines.first() {
        Some(line) if line.slot == slot => slot,
        Some(line) => quiet_until(schedule, slot).min(line.slot),
        None => quiet_until(schedule, slot),
    }
}

// Where no cell waits, the slots up to the next arrival or line are skipped: the fabric rests. The answer is the slot
// that comes then.
#[tactic(auto, using(crate::proofs::Following::skip_steps))]
fn skip<R: Rank>(
    replay: &mut Replay<R>,
    schedule: &Schedule,
    lines: &[Transfer],
    slot: Slot,
) -> Slot
    requires in_step { IsInStep (map R.machine replay.old.fixed) slot replay.old }
    requires in_order { AreInOrder (ports_in replay.old) lines.now }
    requires none_before { NoneBefore slot 1 lines.now }
    ensures still { IsStill schedule.now.came lines.now slot result }
    ensures skips { IsEmptyFabric replay.old.fabric.state → IsStillUntil schedule.now.came lines.now slot result }
    ensures empty { slot < result → IsEmptyFabric replay.old.fabric.state }
    ensures rested { HasRested (map R.machine replay.old.fixed) slot result replay.old replay.new }
{
    if !replay.empty() {
        return slot;
    }
    let next = still_until(schedule, lines, slot);
    if next == slot {
        return slot;
    }
    replay.rest(slot, next);
    next
}

// What the lines that are left at the end of the run come to. The first of them is of a slot that the run does not
// reach.
fn left_over(lines: &[Transfer], rest: &[Transfer]) -> Result<(), AuditRefusal>
    requires { length rest.now ≤ length lines.now }
    ensures none { OnOk result (rest.now ≡ []) }
    ensures some { IfErr result (λ refusal.
        (refusal ≡ Left (length lines.now - length rest.now + 1)) × (0 < length rest.now)) }
{
    if rest.is_empty() {
        Ok(())
    } else {
        Err(AuditRefusal::Left {
            line: (lines.len() - rest.len()) as u64 + 1,
        })
    }
}

// Replays the lines over all cells that arrive. What a slot moves is noted in the room of the slot before it. The error
// is the first fault of a phase, or else the first line that is left at the end of the run.
fn replay_run<R: Rank>(
    replay: &mut Replay<R>,
    schedule: &Schedule,
    lines: &[Transfer],
    note: &mut Room<Transfer>,
) -> Result<(), AuditRefusal>
    requires { IsReady (map R.machine replay.old.fixed) schedule.now.came lines.now replay.old note.old }
    ensures { RunEnds (map R.machine replay.old.fixed) schedule.now.came lines.now replay.old result }
{
    let mut coming = Coming::none();
    let mut slot = 0;
    let mut rest = lines;
    'slots: while !is_over(replay, schedule, slot) {
        note.clear();
        slot = skip(replay, schedule, rest, slot);
        schedule.arrive(slot, &mut coming);
        let arrivals = coming.arrivals();
        rest = match replay.slot(slot, arrivals, rest, note) {
            Ok(rest) => rest,
            Err(fault) => return Err(AuditRefusal::of_slot(slot, fault)),
        };
        slot += 1;
    }
    left_over(lines, rest)
}
