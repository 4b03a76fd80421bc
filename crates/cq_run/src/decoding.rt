//! The decoding of one capture: by a reader in a thread of its own, or here where no thread can be had.
ghost use Rattle.std.specs.Prelude.{◌≡◌, ◌≤◌, [], IfErr, IfOk, IfSome, length};
ghost use Rattle.cq_run.specs.Terms.{IsFaulty, fault_of, Spells, IsPairOf, SameReader, bytes_to_read, taken, items_of, IsBegun, source, IsEmptied, reader_of, longest_file};

use crate::running::Running;
use cq_base::{NoMemory, Port};
use cq_pcap::{Capture, PacketRow, PcapRefusal, read_capture};
use cq_stream::{Intake, Item, Watch, pair};
use std::alloc::Global;
use std::sync::Wait;
use std::thread::{Threads, yield_now};

// How many items may wait in a reader's ring.
const ROOM: u16 = 1024;

/// A decoding that was begun. Neither it nor its reader can be dropped: whoever begins one has to finish it, and that
/// joins its reader.
pub enum Decoding {
    /// A reader sends what it finds.
    There { intake: Intake, reader: Running },
    /// There was no thread, and these bytes are not decoded yet.
    Here { bytes: Vec<u8> },
}

/// Begins to decode the capture of an input, of at most 2^28 bytes. The watch is told where a reader begins to
/// send. Want of memory drops the bytes.
pub fn begin<R: Threads + Wait + Copy + Send + 'static, W: Watch + 'static>(
    rt: R,
    alloc: Global,
    bytes: Vec<u8>,
    input: Port,
    watch: W,
) -> Result<Decoding, NoMemory>
    requires { length bytes.items ≤ longest_file }
    ensures source { IfOk result (λ decoding. source decoding ≡ bytes.items) }
    ensures begun { IfOk result IsBegun }
{
    let (reader, mut intake) = pair(alloc, bytes, ROOM)?;
    let promise = reader.promise();
    match Running::start(&rt, promise, move || {
        let watch = watch;
        reader.run(&rt, input, watch)
    }) {
        Ok(reader) => {
            intake.send();
            Ok(Decoding::There { intake, reader })
        }
        Err(refused) => {
            intake.alone();
            let done = (refused.value)();
            Ok(Decoding::Here {
                bytes: done.bytes(),
            })
        }
    }
}

/// What `read_capture` answers on the bytes. It waits for the last item of the reader and joins it, whatever the
/// answer is, want of memory too.
pub fn finish<R: Threads + Wait>(
    rt: &R,
    alloc: Global,
    decoding: Decoding,
) -> Result<Capture, PcapRefusal>
    requires begun { IsBegun decoding }
    requires small { length (source decoding) ≤ longest_file }
    ensures spelt { IfOk result (λ packets. Spells (source decoding) packets) }
    ensures faulty { IfErr result (λ refusal. IfSome (fault_of refusal) (IsFaulty (source decoding))) }
{
    match decoding {
        Decoding::Here { bytes } => read_capture(alloc, bytes),
        Decoding::There { mut intake, reader } => {
            let rows = take_rows(rt, alloc, &mut intake);
            join_and_close(rt, intake, reader, rows)
        }
    }
}

// Joins a reader of which all items were taken, so that it waits for no room, and closes its intake.
fn join_and_close<R: Threads>(
    rt: &R,
    intake: Intake,
    reader: Running,
    rows: Result<Vec<PacketRow>, NoMemory>,
) -> Result<Capture, PcapRefusal>
    requires pair { IsPairOf (reader_of reader) intake }
    requires emptied { IsEmptied intake }
    requires taken { IfOk rows (λ rows. taken intake ≡ items_of rows.items) }
    ensures spelt { IfOk result (λ packets. Spells (bytes_to_read (reader_of reader)) packets) }
    ensures faulty { IfErr result (λ refusal. IfSome (fault_of refusal) (IsFaulty (bytes_to_read (reader_of reader)))) }
{
    let done = reader.join(rt, &intake);
    intake.close(done, rows.or(Err(PcapRefusal::NoMemory))?)
}

// Waits for all items, and keeps their rows. Where no memory is left it takes the rest all the same, so that the
// reader ends.
fn take_rows<R: Wait>(
    rt: &R,
    alloc: Global,
    intake: &mut Intake,
) -> Result<Vec<PacketRow>, NoMemory>
    requires { taken intake.old ≡ [] }
    ensures taken { IfOk result (λ rows. taken intake.new ≡ items_of rows.items) }
    ensures emptied { IsEmptied intake.new }
    ensures reader { SameReader intake.old intake.new }
{
    let mut rows = Vec::new(alloc);
    'turns: for _ in rt.forever() {
        match intake.take() {
            Some(Item::Row(row)) => match rows.push(row) {
                Ok(()) => {}
                Err(refused) => {
                    take_rest(rt, intake);
                    return Err(NoMemory::from(refused));
                }
            },
            Some(Item::Ended) => return Ok(rows),
            None => yield_now(),
        }
    }
    unreachable!()
}

// Waits for the last item.
fn take_rest<R: Wait>(rt: &R, intake: &mut Intake)
    ensures emptied { IsEmptied intake.new }
    ensures reader { SameReader intake.old intake.new }
{
    'turns: for _ in rt.forever() {
        match intake.take() {
            Some(Item::Ended) => return,
            Some(Item::Row(_)) => {}
            None => yield_now(),
        }
    }
}
