//! Captures go through a reader, in a thread of its own and beside its caller.
ghost use Rattle.std.specs.Prelude.{◌≡◌, ◌≤◌, [], IfOk, IfSome, length};
ghost use Rattle.cq_base.specs.Limits.{longest_file};
ghost use Rattle.cq_stream.specs.Rings.{IsPairOf, SameReader, taken, told};
ghost use Rattle.cq_stream.specs.Stream.{IsLeftTo, items_of};

use cq_base::{NoMemory, Port};
use cq_pcap::{PacketRow, PcapRefusal};
use cq_stream::{Done, Intake, Item, OpenWatch, Order, Reader, Watch, pair};
use cq_trial_kit::HEADER;
use std::alloc::Global;
use std::sync::atomic::AtomicU64;
use std::sync::atomic::Ordering::SeqCst;
use std::sync::{Arc, Wait};
use std::thread;
use std::thread::{Threads, yield_now};

// How many turns the caller waits for the items at most.
const TURNS: u32 = 10_000_000;

// Five packets of 60 bytes, at 0, 1, 2, 3 and 4 nanoseconds.
fn five_packets() -> [u8; 404] {
    let mut file = [0; 404];
    file[..24].copy_from_slice(&HEADER);
    for k in 0..5 {
        let at = 24 + 76 * k;
        file[at + 4] = k as u8;
        file[at + 8] = 60;
        file[at + 12] = 60;
    }
    file
}

// Whether the rows are those of the five packets.
fn are_of_five(rows: &[PacketRow]) -> bool {
    for k in 0..rows.len() {
        let row = rows[k];
        if (row.stamp, row.original, row.len) != (k as u64, 60, 60) {
            return false;
        }
    }
    rows.len() == 5
}

// Takes all items, and keeps their rows. `None` says that they do not end, or that there is no memory.
fn rows_taken(alloc: Global, intake: &mut Intake) -> Option<Vec<PacketRow>>
    requires { taken intake.old ≡ [] }
    ensures taken { IfSome result (λ rows. taken intake.new ≡ items_of rows.items) }
    ensures reader { SameReader intake.old intake.new }
{
    let mut rows = Vec::new(alloc);
    'turns: for _ in 0..TURNS {
        match intake.take() {
            Some(Item::Row(row)) => rows.push(row).ok()?,
            Some(Item::Ended) => return Some(rows),
            None => yield_now(),
        }
    }
    None
}

// The rows that a reader sends from a thread of its own, and what it leaves. `None` also says that there is no thread.
fn read_beside<R: Threads + Wait + Copy + Send + 'static>(
    rt: R,
    alloc: Global,
    reader: Reader,
    intake: &mut Intake,
) -> Option<(Vec<PacketRow>, Done)>
    requires pair { IsPairOf reader intake.old }
    requires taken { taken intake.old ≡ [] }
    requires told { told intake.old ≡ [] }
    ensures taken { IfSome result (λ r. taken intake.new ≡ items_of r.0.items) }
    ensures left { IfSome result (λ r. IsLeftTo intake.new r.1) }
{
    intake.send();
    let promise = reader.promise();
    let run = move || reader.run(&rt, 0, OpenWatch);
    let Ok(child) = thread::spawn_with(&rt, promise, run) else {
        return None;
    };
    let Some(rows) = rows_taken(alloc, intake) else {
        return None;
    };
    Some((rows, child.join(&rt)))
}

// A reader of these bytes and its other end, with room for two items.
fn reader_of(alloc: Global, file: &[u8]) -> Result<(Reader, Intake), NoMemory>
    requires { length file.now ≤ longest_file }
    ensures pair { IfOk result (λ r. IsPairOf r.0 r.1) }
    ensures taken { IfOk result (λ r. taken r.1 ≡ []) }
    ensures told { IfOk result (λ r. told r.1 ≡ []) }
{
    pair(alloc, file.to_vec(alloc)?, 2)
}

// How what a thread of its own reads ends.
#[derive(Drop)]
enum Ending {
    // With the five packets.
    Five,
    // With no row and a cut header behind that of the file.
    Cut,
}

// Whether the five packets are read.
fn ends_with_five(mut intake: Intake, mut done: Done, rows: Vec<PacketRow>) -> bool
    requires left { IsLeftTo intake done }
    requires taken { taken intake ≡ items_of rows.items }
{
    let shown = done.shown();
    intake.meet(&mut done);
    match intake.close(done, rows) {
        Ok(capture) => shown && are_of_five(capture.rows()),
        Err(_) => false,
    }
}

// Whether no row and a cut header are.
fn ends_cut(intake: Intake, done: Done, rows: Vec<PacketRow>) -> bool
    requires left { IsLeftTo intake done }
    requires taken { taken intake ≡ items_of rows.items }
{
    let found_none = done.shown() && rows.is_empty();
    match intake.close(done, rows) {
        Ok(_) => false,
        Err(refusal) => found_none && refusal == PcapRefusal::CutHeader { offset: 24 },
    }
}

// Whether what a thread of its own reads from these ends so.
fn ends_so<R: Threads + Wait + Copy + Send + 'static>(
    rt: R,
    alloc: Global,
    reader: Reader,
    mut intake: Intake,
    ending: Ending,
) -> bool
    requires pair { IsPairOf reader intake }
    requires taken { taken intake ≡ [] }
    requires told { told intake ≡ [] }
{
    match read_beside(rt, alloc, reader, &mut intake) {
        Some((rows, done)) => match ending {
            Ending::Five => ends_with_five(intake, done, rows),
            Ending::Cut => ends_cut(intake, done, rows),
        },
        None => false,
    }
}

// Whether what a thread of its own reads in the file ends so.
fn is_read<R: Threads + Wait + Copy + Send + 'static>(
    rt: R,
    alloc: Global,
    file: &[u8],
    ending: Ending,
) -> bool
    requires { length file.now ≤ longest_file }
{
    match reader_of(alloc, file) {
        Ok((reader, intake)) => ends_so(rt, alloc, reader, intake, ending),
        Err(_) => false,
    }
}

#[test]
fn rows_come_from_a_thread_in_order(rt: HostRuntime) {
    assert!(rt; is_read(rt, rt.alloc(), &five_packets(), Ending::Five));
}

// The header of a file, and 15 bytes behind it.
fn cut_file() -> [u8; 39] {
    let mut file = [0; 39];
    file[..24].copy_from_slice(&HEADER);
    file
}

#[test]
fn a_cut_header_ends_the_items(rt: HostRuntime) {
    assert!(rt; is_read(rt, rt.alloc(), &cut_file(), Ending::Cut));
}

// Whether a reader that is told to be alone sends nothing, and leaves the bytes.
fn sends_nothing<R: Wait>(rt: &R, reader: Reader, mut intake: Intake) -> bool
    requires pair { IsPairOf reader intake }
    requires told { told intake ≡ [] }
{
    intake.alone();
    let mut done = reader.run(rt, 0, OpenWatch);
    intake.meet(&mut done);
    let sent_nothing = intake.take().is_none();
    let left = done.bytes();
    sent_nothing && left.as_slice() == five_packets().as_slice()
}

fn is_left_alone<R: Wait>(rt: &R, alloc: Global) -> bool {
    match reader_of(alloc, &five_packets()) {
        Ok((reader, intake)) => sends_nothing(rt, reader, intake),
        Err(_) => false,
    }
}

#[test]
fn a_reader_that_is_alone_sends_nothing(rt: HostRuntime) {
    assert!(rt; is_left_alone(&rt, rt.alloc()));
}

// Counts how often it is told that a reader begins.
#[derive(Drop)]
struct Counting {
    began: Option<Arc<AtomicU64, Global>>,
}

impl Watch for Counting {
    fn began(&self, _input: Port) {
        if let Some(began) = &self.began {
            began.fetch_add(1, SeqCst);
        }
    }

    fn again(&self) -> Self {
        match &self.began {
            Some(began) => Counting {
                began: Arc::try_clone(began).ok(),
            },
            None => Counting { began: None },
        }
    }
}

// Runs a reader with this order. Its file has no packet, so the ring has room for all that is sent.
fn run_told<R: Wait>(rt: &R, reader: Reader, mut intake: Intake, order: Order, watch: Counting)
    requires pair { IsPairOf reader intake }
    requires told { told intake ≡ [] }
{
    match order {
        Order::Send => intake.send(),
        Order::Alone => intake.alone(),
    }
    let _done = reader.run(rt, 0, watch);
}

// Whether the watch is told so often that a reader with this order begins.
fn begins<R: Wait>(
    rt: &R,
    alloc: Global,
    order: Order,
    began: &Arc<AtomicU64, Global>,
    times: u64,
) -> bool {
    let watch = Counting {
        began: Arc::try_clone(began).ok(),
    };
    match reader_of(alloc, &HEADER) {
        Ok((reader, intake)) => {
            run_told(rt, reader, intake, order, watch.again());
            began.load(SeqCst) == times
        }
        Err(_) => false,
    }
}

fn begins_so_often<R: Wait>(rt: &R, alloc: Global, order: Order, times: u64) -> bool {
    match Arc::new(alloc, AtomicU64::new(0)) {
        Ok(began) => begins(rt, alloc, order, &began, times),
        Err(_) => false,
    }
}

#[test]
fn the_watch_is_told_once_where_the_reader_sends(rt: HostRuntime) {
    let once = begins_so_often(&rt, rt.alloc(), Order::Send, 1);
    assert!(rt; once && begins_so_often(&rt, rt.alloc(), Order::Alone, 0));
}
