//! Calls of the program, and what they come to.

use crate::Disk;
use cq_base::NoMemory;
use cq_crew::{Gate, OpenGate};
use cq_run::{stream_top, switch_top};
use cq_space::MemSink;
use cq_stream::{OpenWatch, Watch};
use std::alloc::Global;
use std::sync::Wait;
use std::thread::Threads;

/// What a call tells: the code of its status, and what standard output and standard error take, or as much of it as
/// there is room for.
pub type Told<'a> = (u8, &'a str, &'a str);

/// What a call leaves: names with just these bytes, and names that are not there.
pub type Left<'a> = (&'a [(&'a str, &'a [u8])], &'a [&'a str]);

/// The words of a call, and what it tells.
pub type Call<'a> = (&'a [&'a str], Told<'a>);

/// Room for all that the two streams are given.
pub(crate) const ALL: (u64, u64) = (u64::MAX, u64::MAX);

/// Whether a stream with so much room took the text, or as much of it as there was room for.
fn has_taken(stream: &MemSink, text: &str, room: u64) -> bool {
    let taken = stream.bytes();
    taken.len() == text.len().min(room as usize) && text.as_bytes().starts_with(taken)
}

/// Puts the words, each a text of its own.
fn put_words(owned: &mut Vec<String>, alloc: Global, words: &[&str]) -> Result<(), NoMemory> {
    for word in words {
        owned.push(String::from_str(alloc, word)?)?;
    }
    Ok(())
}

/// The words, each a text of its own.
pub fn words_of(alloc: Global, words: &[&str]) -> Result<Vec<String>, NoMemory> {
    let mut owned = Vec::new(alloc);
    put_words(&mut owned, alloc, words)?;
    Ok(owned)
}

/// Whether the call over the disk tells what it should, where the gate is told of the workers' steps, and the two
/// streams take so many bytes.
fn answers<R: Threads + Sync, G: Gate>(
    rt: &R,
    alloc: Global,
    words: &[String],
    (code, to_out, to_err): Told,
    disk: &mut Disk,
    rooms: (u64, u64),
    gate: &G,
) -> bool {
    let mut out = MemSink::new(alloc);
    let mut err = MemSink::new(alloc);
    out.fail_after(rooms.0);
    err.fail_after(rooms.1);
    let status = switch_top(rt, alloc, words, &mut disk.files, &mut out, &mut err, gate);
    status.code() == code && has_taken(&out, to_out, rooms.0) && has_taken(&err, to_err, rooms.1)
}

/// Whether the call that may read ahead tells what it should over the disk, where the watch is told of its readers.
fn answers_ahead<R, W: Watch + 'static>(
    rt: R,
    alloc: Global,
    words: &[String],
    (code, to_out, to_err): Told,
    disk: &mut Disk,
    watch: &W,
) -> bool
where
    R: Threads + Wait + Sync + Copy + Send + 'static,
{
    let mut out = MemSink::new(alloc);
    let mut err = MemSink::new(alloc);
    let status = stream_top(
        rt,
        alloc,
        words,
        &mut disk.files,
        &mut out,
        &mut err,
        &OpenGate,
        watch,
    );
    status.code() == code && has_taken(&out, to_out, u64::MAX) && has_taken(&err, to_err, u64::MAX)
}

/// Whether the call over the disk tells what it should, where the gate is told of the workers' steps, and the two
/// streams take so many bytes.
fn tells_within<R: Threads + Sync, G: Gate>(
    rt: &R,
    alloc: Global,
    (words, told): Call,
    disk: &mut Disk,
    rooms: (u64, u64),
    gate: &G,
) -> bool {
    match words_of(alloc, words) {
        Ok(words) => disk.is_whole && answers(rt, alloc, &words, told, disk, rooms, gate),
        Err(_) => false,
    }
}

/// Whether the call over the disk tells what it should, where the gate is told of the workers' steps.
pub(crate) fn tells<R: Threads + Sync, G: Gate>(
    rt: &R,
    alloc: Global,
    call: Call,
    disk: &mut Disk,
    gate: &G,
) -> bool {
    tells_within(rt, alloc, call, disk, ALL, gate)
}

/// Whether the call that may read ahead tells what it should over the disk, where the watch is told of its readers.
pub(crate) fn tells_ahead<R, W: Watch + 'static>(
    rt: R,
    alloc: Global,
    (words, told): Call,
    disk: &mut Disk,
    watch: &W,
) -> bool
where
    R: Threads + Wait + Sync + Copy + Send + 'static,
{
    match words_of(alloc, words) {
        Ok(words) => disk.is_whole && answers_ahead(rt, alloc, &words, told, disk, watch),
        Err(_) => false,
    }
}

/// Whether the call over the disk tells what it should and leaves this, where the two streams take so many bytes.
pub fn leaves_within<R: Threads + Sync>(
    rt: &R,
    alloc: Global,
    call: Call,
    mut disk: Disk,
    rooms: (u64, u64),
    left: Left,
) -> bool {
    tells_within(rt, alloc, call, &mut disk, rooms, &OpenGate) && disk.is_left(left)
}

/// Whether the call over the disk tells what it should and leaves this.
pub fn leaves<R: Threads + Sync>(
    rt: &R,
    alloc: Global,
    call: Call,
    disk: Disk,
    left: Left,
) -> bool {
    leaves_within(rt, alloc, call, disk, ALL, left)
}

/// Whether each of the calls over the disk, one after another, tells what it should.
fn all_tell<R: Threads + Sync>(rt: &R, alloc: Global, calls: &[Call], disk: &mut Disk) -> bool {
    for call in calls {
        if !tells(rt, alloc, *call, disk, &OpenGate) {
            return false;
        }
    }
    true
}

/// Whether each of the calls over the disk, one after another, tells what it should, and the last leaves this.
pub fn all_leave<R: Threads + Sync>(
    rt: &R,
    alloc: Global,
    calls: &[Call],
    mut disk: Disk,
    left: Left,
) -> bool {
    all_tell(rt, alloc, calls, &mut disk) && disk.is_left(left)
}

/// Whether the call that may read ahead tells what it should over the disk, and leaves this.
pub fn leaves_ahead<R>(rt: R, alloc: Global, call: Call, mut disk: Disk, left: Left) -> bool
where
    R: Threads + Wait + Sync + Copy + Send + 'static,
{
    tells_ahead(rt, alloc, call, &mut disk, &OpenWatch) && disk.is_left(left)
}

/// Whether the call over the disk does all, whatever it tells.
fn is_done<R: Threads + Sync>(rt: &R, alloc: Global, words: &[String], disk: &mut Disk) -> bool {
    let mut out = MemSink::new(alloc);
    let mut err = MemSink::new(alloc);
    let files = &mut disk.files;
    switch_top(rt, alloc, words, files, &mut out, &mut err, &OpenGate).code() == 0
}

/// Whether the call of the words over the disk does all, whatever it tells, and leaves this.
pub fn passes<R: Threads + Sync>(
    rt: &R,
    alloc: Global,
    words: &[&str],
    mut disk: Disk,
    left: Left,
) -> bool {
    match words_of(alloc, words) {
        Ok(words) => {
            disk.is_whole && is_done(rt, alloc, &words, &mut disk) && disk.is_left(left)
        }
        Err(_) => false,
    }
}

/// The names that a command of a trial may write, but for its state.
pub const WRITTEN: &[&str] = &[
    "b",
    "out0.pcap",
    "out1.pcap",
    "out2.pcap",
    "trace.txt",
    "log.txt",
];

/// Whether the call over the given files tells what it should and touches nothing: each given file is as it was, and
/// none that could be written is there.
pub fn touches_nothing<R: Threads + Sync>(
    rt: &R,
    alloc: Global,
    call: Call,
    given: &[(&str, &[u8])],
) -> bool {
    let disk = Disk::new(alloc).holding(given);
    leaves(rt, alloc, call, disk, (given, WRITTEN))
}
