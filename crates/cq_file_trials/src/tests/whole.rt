//! Whole reads, writes and puts, over files and a sink in memory.
ghost use Rattle.std.specs.Prelude.{◌≡◌, ◌≤◌};
ghost use Rattle.cq_base.specs.Limits.{longest_file};
ghost use Rattle.cq_space.specs.Space.{Closed};

use cq_base::NoMemory;
use cq_space::{MemFiles, MemSink, ReadRefusal, WriteFault, put_all, read_whole, write_whole};
use std::alloc::Global;

const TEXT: &[u8; 5] = b"abcde";

/// Gives a name the text, and cuts reading it after so many bytes, if at all. The newest cut counts.
fn give(files: &mut MemFiles, cut: Option<u64>) -> Result<(), NoMemory>
    requires { files.old.mode ≡ Closed }
    ensures { files.new.mode ≡ Closed }
{
    files.set("in", TEXT)?;
    if let Some(after) = cut {
        files.fail_read("in", 1)?;
        files.fail_read("in", after)?;
    }
    Ok(())
}

/// Whether reading from these files comes to this, where the name has a limit, and the name stays.
fn is_read_from(
    alloc: Global,
    files: &mut MemFiles,
    limit: u64,
    wanted: Result<usize, ReadRefusal>,
) -> bool
    requires closed { files.old.mode ≡ Closed }
    requires limit { limit ≤ longest_file }
{
    let answer = match read_whole(alloc, files, "in", limit) {
        Ok(bytes) => Ok(bytes.len()),
        Err(refusal) => Err(refusal),
    };
    let stays = files.bytes("in") == Some(TEXT.as_slice()) && files.starved() == 0;
    answer == wanted && stays
}

/// Whether reading comes to this, where the name has a limit and may be cut, and the name stays.
fn is_read(alloc: Global, limit: u64, cut: Option<u64>, wanted: Result<usize, ReadRefusal>) -> bool
    requires { limit ≤ longest_file }
{
    let mut files = MemFiles::new(alloc);
    give(&mut files, cut).is_ok() && is_read_from(alloc, &mut files, limit, wanted)
}

/// The limit of the name, its cut, and what reading comes to.
const READ: [(u64, Option<u64>, Result<usize, ReadRefusal>); 8] = [
    (5, None, Ok(5)),
    (4, None, Err(ReadRefusal::Long { limit: 4 })),
    (0, None, Err(ReadRefusal::Long { limit: 0 })),
    (9, Some(0), Err(ReadRefusal::Fault)),
    (9, Some(3), Err(ReadRefusal::Fault)),
    (9, Some(5), Err(ReadRefusal::Fault)),
    (9, Some(6), Ok(5)),
    (2, Some(3), Err(ReadRefusal::Long { limit: 2 })),
];

fn are_read(alloc: Global) -> bool {
    for (limit, cut, wanted) in READ {
        if !is_read(alloc, limit, cut, wanted) {
            return false;
        }
    }
    true
}

#[test]
fn a_name_is_read_up_to_its_cut_and_the_limit(rt: HostRuntime) {
    assert!(rt; are_read(rt.alloc()));
}

/// Cuts a name that has no bytes, and gives another some.
fn cut_none(files: &mut MemFiles) -> Result<(), NoMemory>
    requires { files.old.mode ≡ Closed }
    ensures { files.new.mode ≡ Closed }
{
    files.fail_read("in", 0)?;
    files.set("other", TEXT)
}

/// Whether a name is missing, and has no bytes.
fn is_missing_from(alloc: Global, files: &mut MemFiles) -> bool
    requires { files.old.mode ≡ Closed }
{
    let refusal = read_whole(alloc, files, "in", 9).err();
    refusal == Some(ReadRefusal::Missing) && files.bytes("in").is_none()
}

/// Whether a name that is cut, and has no bytes, is missing beside another name.
fn is_missing(alloc: Global) -> bool {
    let mut files = MemFiles::new(alloc);
    cut_none(&mut files).is_ok() && is_missing_from(alloc, &mut files)
}

#[test]
fn a_name_that_is_only_cut_is_missing(rt: HostRuntime) {
    assert!(rt; is_missing(rt.alloc()));
}

/// Whether the text is written to a name of these files, and read from it.
fn is_kept_in(alloc: Global, files: &mut MemFiles, text: &[u8]) -> bool
    requires { files.old.mode ≡ Closed }
{
    let written = write_whole(files, "out", text);
    match read_whole(alloc, files, "out", 1 << 28) {
        Ok(bytes) => written == Ok(()) && bytes.as_slice() == text,
        Err(_) => false,
    }
}

/// Whether the text is written to a name that had other bytes, and read from it.
fn is_kept(alloc: Global, text: &[u8]) -> bool {
    let mut files = MemFiles::new(alloc);
    files.set("out", TEXT).is_ok() && is_kept_in(alloc, &mut files, text)
}

/// Whether a text of three pieces is: 65,536 bytes are asked for at once.
fn pieces_are_kept(alloc: Global) -> bool {
    match vec![in alloc; 7u8; 2 * 65_536 + 1] {
        Ok(text) => is_kept(alloc, &text),
        Err(_) => false,
    }
}

#[test]
fn a_name_of_many_pieces_is_read_and_written_whole(rt: HostRuntime) {
    assert!(rt; pieces_are_kept(rt.alloc()));
}

/// Where writing is cut, what it comes to, and what is left.
type Cut = (Option<u64>, Result<(), WriteFault>, &'static [u8]);

/// Of a name that had other bytes.
const CUT_NAMES: &[Cut] = &[
    (None, Ok(()), b"abcde"),
    (Some(0), Err(WriteFault), b""),
    (Some(3), Err(WriteFault), b"abc"),
    (Some(5), Ok(()), b"abcde"),
];

/// Of a sink that has taken one byte.
const CUT_SINKS: &[Cut] = &[
    (None, Ok(()), b"-abcde"),
    (Some(0), Err(WriteFault), b"-"),
    (Some(3), Err(WriteFault), b"-ab"),
    (Some(6), Ok(()), b"-abcde"),
];

/// Gives two names bytes, and cuts writing the first after so many, if at all. The newest cut counts.
fn give_two(files: &mut MemFiles, cut: Option<u64>) -> Result<(), NoMemory>
    requires { files.old.mode ≡ Closed }
    ensures { files.new.mode ≡ Closed }
{
    files.set("out", b"before")?;
    files.set("other", b"kept")?;
    if let Some(after) = cut {
        files.fail_read("out", 0)?;
        files.fail_write("out", 1)?;
        files.fail_write("out", after)?;
    }
    Ok(())
}

/// Whether writing to a name of these files comes to this, and another name keeps its own.
fn is_written_in(files: &mut MemFiles, wanted: Result<(), WriteFault>, left: &[u8]) -> bool
    requires { files.old.mode ≡ Closed }
{
    let written = write_whole(files, "out", TEXT);
    let other = files.bytes("other") == Some(b"kept".as_slice());
    written == wanted && files.bytes("out") == Some(left) && other && files.starved() == 0
}

/// Whether writing to a name, which may be cut, comes to this, and another name keeps its own.
fn is_written(alloc: Global, row: &Cut) -> bool {
    let (cut, wanted, left) = *row;
    let mut files = MemFiles::new(alloc);
    give_two(&mut files, cut).is_ok() && is_written_in(&mut files, wanted, left)
}

#[test]
fn a_name_is_written_up_to_its_cut(rt: HostRuntime) {
    for row in CUT_NAMES {
        assert!(rt; is_written(rt.alloc(), row));
    }
}

/// Whether a sink that may be cut comes to this behind a first byte, and has then taken these bytes.
fn is_taken(alloc: Global, row: &Cut) -> bool {
    let (cut, wanted, taken) = *row;
    let mut sink = MemSink::new(alloc);
    let first = put_all(&mut sink, b"-");
    if let Some(after) = cut {
        sink.fail_after(1);
        sink.fail_after(after);
    }
    let then = put_all(&mut sink, TEXT);
    first == Ok(()) && then == wanted && sink.bytes() == taken && sink.starved() == 0
}

#[test]
fn a_sink_takes_bytes_up_to_its_cut(rt: HostRuntime) {
    for row in CUT_SINKS {
        assert!(rt; is_taken(rt.alloc(), row));
    }
}
