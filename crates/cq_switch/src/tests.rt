//! Worked answers of the top call, over files in memory and over the system's own.
mod crossed;
mod meeting;
mod office;
mod plain;
mod readers;
mod soak;

use cq_base::NoMemory;
use cq_crew::OpenGate;
use cq_run::switch_top;
use cq_space::{HostFiles, MemSink};
use cq_trial_kit::{FORMS, HEADER};
use cq_trials::{Call, Disk, MICROSECONDS, Packet, capture_with, leaves, words_of};
use std::alloc::Global;
use std::rt::{Env, Files};
use std::thread::Threads;
use std::{env, fs, process};

/// The header that is written, with bits of the upper half of the link type, which are ignored.
const MORE_ABOVE: [u8; 24] = [
    0x4d, 0x3c, 0xb2, 0xa1, 2, 0, 4, 0, 0, 0, 0, 0, 0, 0, 0, 0, 0, 0, 4, 0, 1, 0, 0, 0xf0,
];

const EMPTY_FRAME: Packet = (1, 5, 0, 60);

const EMPTY_FRAME_WRITTEN: Packet = (1, 5000, 0, 60);

/// The header and the packets that are read, and the packets that are written.
type Passed = (&'static [u8], &'static [Packet], &'static [Packet]);

const PASSED: &[Passed] = &[
    // No packet.
    (&MICROSECONDS, &[], &[]),
    // No packet, as it is written.
    (&HEADER, &[], &[]),
    // A link type with more above it.
    (&MORE_ABOVE, &[], &[]),
    // No bytes.
    (&MICROSECONDS, &[EMPTY_FRAME], &[EMPTY_FRAME_WRITTEN]),
    // One, two and two cells at once.
    (
        &HEADER,
        &[(0, 0, 64, 64), (0, 0, 65, 65), (0, 0, 128, 128)],
        &[(0, 0, 64, 64), (0, 1024, 65, 65), (0, 2048, 128, 128)],
    ),
    // An earlier stamp after a later one.
    (
        &HEADER,
        &[(0, 2048, 60, 60), (0, 0, 60, 60)],
        &[(0, 2048, 60, 60), (0, 2560, 60, 60)],
    ),
    // A busy line.
    (
        &HEADER,
        &[(0, 0, 200, 200), (0, 512, 60, 60)],
        &[(0, 1536, 200, 200), (0, 2048, 60, 60)],
    ),
    // Subseconds of two seconds.
    (&HEADER, &[(0, 2_000_000_000, 60, 60)], &[(2, 0, 60, 60)]),
    // The longest frame.
    (
        &HEADER,
        &[(0, 0, 262_144, 262_144)],
        &[(0, 2_096_640, 262_144, 262_144)],
    ),
];

/// Whether `a` passes to this name, and stays where that is another.
fn passes_to<'a, R: Threads + Sync>(
    rt: &R,
    alloc: Global,
    to: &'a str,
    input: &'a [u8],
    output: &'a [u8],
) -> bool {
    let disk = Disk::new(alloc).holding(&[("a", input)]);
    let words = ["pass", "a", to];
    let call: Call = (&words, (0, "", ""));
    let kept = if to == "a" { output } else { input };
    leaves(rt, alloc, call, disk, (&[("a", kept), (to, output)], &[]))
}

/// Whether the capture passes to another name, and where one name is for both.
fn passes_to_both<R: Threads + Sync>(rt: &R, alloc: Global, input: &[u8], output: &[u8]) -> bool {
    passes_to(rt, alloc, "b", input, output) && passes_to(rt, alloc, "a", input, output)
}

/// Whether it passes so as a capture of the packets that are written.
fn passes_as<R: Threads + Sync>(rt: &R, alloc: Global, input: &[u8], written: &[Packet]) -> bool {
    match capture_with(alloc, &HEADER, written) {
        Ok(output) => passes_to_both(rt, alloc, input, &output),
        Err(_) => false,
    }
}

fn passes_so<R: Threads + Sync>(rt: &R, alloc: Global, case: &Passed) -> bool {
    let (header, packets, written) = *case;
    match capture_with(alloc, header, packets) {
        Ok(input) => passes_as(rt, alloc, &input, written),
        Err(_) => false,
    }
}

#[test]
fn a_packet_leaves_in_the_slot_of_its_last_cell_also_to_the_name_that_is_read(rt: HostRuntime) {
    for case in PASSED {
        assert!(rt; passes_so(&rt, rt.alloc(), case));
    }
}

#[test]
fn every_form_of_a_capture_passes_alike(rt: HostRuntime) {
    // The form that the program writes.
    let written = &FORMS[1];
    for input in &FORMS {
        assert!(rt; passes_to(&rt, rt.alloc(), "b", input, written));
    }
}

/// Whether the words over the system's files end with the code and the line, which is told in three parts: what is
/// wrong, the name that it is wrong with, and its end.
fn ends<R: Threads + Sync + Files>(
    rt: &R,
    alloc: Global,
    words: &[String],
    code: u8,
    line: [&str; 3],
) -> bool {
    let mut files = HostFiles::new(alloc, rt);
    let mut out = MemSink::new(alloc);
    let mut err = MemSink::new(alloc);
    let status = switch_top(rt, alloc, words, &mut files, &mut out, &mut err, &OpenGate);
    status.code() == code && is_made_of(err.bytes(), line)
}

/// Whether the bytes are those of the texts one after another.
fn is_made_of(bytes: &[u8], [first, second, third]: [&str; 3]) -> bool {
    let Some(rest) = bytes.strip_prefix(first.as_bytes()) else {
        return false;
    };
    let Some(rest) = rest.strip_prefix(second.as_bytes()) else {
        return false;
    };
    rest == third.as_bytes()
}

/// Whether `pass` over the system's files ends with the code and the line.
fn is_answered<R: Threads + Sync + Files>(
    rt: &R,
    alloc: Global,
    names: [&str; 2],
    code: u8,
    line: [&str; 3],
) -> bool {
    match words_of(alloc, &["pass", names[0], names[1]]) {
        Ok(words) => ends(rt, alloc, &words, code, line),
        Err(_) => false,
    }
}

/// Whether a capture passes from one name to the other, and neither from nor to one that nothing can open.
fn are_answered<R: Threads + Sync + Files>(
    rt: &R,
    alloc: Global,
    from: &str,
    to: &str,
    nowhere: &str,
) -> bool {
    is_answered(rt, alloc, [from, to], 0, ["", "", ""])
        && is_answered(rt, alloc, [nowhere, to], 5, ["read fault: ", nowhere, "\n"])
        && is_answered(
            rt,
            alloc,
            [from, nowhere],
            6,
            ["write fault: ", nowhere, "\n"],
        )
}

/// Whether the system's file has just these bytes.
fn is_held<R: Files + Alloc>(rt: &R, name: &str, bytes: &[u8]) -> bool {
    match fs::read(rt, name) {
        Ok(found) => found.as_slice() == bytes,
        Err(_fault) => false,
    }
}

/// Whether the input, written under a name, passes to another as the output, and both names can be taken away again.
fn passes_over<R: Threads + Sync + Files + Alloc>(
    rt: &R,
    alloc: Global,
    [from, to, nowhere]: [&str; 3],
    input: &[u8],
    output: &[u8],
) -> bool {
    let is_there = fs::write(rt, from, input).is_ok();
    let are_answered = are_answered(rt, alloc, from, to, nowhere);
    let are_held = is_held(rt, to, output) && is_held(rt, from, input);
    let are_gone = fs::remove_file(rt, from).is_ok() && fs::remove_file(rt, to).is_ok();
    is_there && are_answered && are_held && are_gone
}

/// The header and the packet of the frame.
const INPUT: &[u8] = &[
    0xd4, 0xc3, 0xb2, 0xa1, 2, 0, 4, 0, 0, 0, 0, 0, 0, 0, 0, 0, 0, 0, 4, 0, 1, 0, 0, 0, //
    1, 0, 0, 0, 5, 0, 0, 0, 0, 0, 0, 0, 60, 0, 0, 0,
];

/// The same as it is written.
const OUTPUT: &[u8] = &[
    0x4d, 0x3c, 0xb2, 0xa1, 2, 0, 4, 0, 0, 0, 0, 0, 0, 0, 0, 0, 0, 0, 4, 0, 1, 0, 0, 0, //
    1, 0, 0, 0, 0x88, 0x13, 0, 0, 0, 0, 0, 0, 60, 0, 0, 0,
];

/// Puts three names in a folder with this number, so that two runs side by side do not meet: to read, to write, and one
/// below a file, which nothing can open.
fn put_names(
    names: &mut Vec<String>,
    alloc: Global,
    folder: &str,
    own: u32,
) -> Result<(), NoMemory> {
    for end in ["in.pcap", "out.pcap", "in.pcap/out.pcap"] {
        names.push(format!(in alloc; "{folder}/cq_switch-{own}-{end}")?)?;
    }
    Ok(())
}

/// Whether the capture of one frame passes so between the names.
fn passes_between<R: Threads + Sync + Files + Alloc>(
    rt: &R,
    alloc: Global,
    names: &[String],
) -> bool {
    match names {
        [from, to, nowhere] => passes_over(rt, alloc, [from, to, nowhere], INPUT, OUTPUT),
        _ => false,
    }
}

/// Whether it passes so in a folder.
fn passes_in<R: Threads + Sync + Files + Alloc>(
    rt: &R,
    alloc: Global,
    folder: &str,
    own: u32,
) -> bool {
    let mut names = Vec::new(alloc);
    match put_names(&mut names, alloc, folder, own) {
        Ok(()) => passes_between(rt, alloc, &names),
        Err(_) => false,
    }
}

/// Whether it passes so in the folder of the system for what is kept for a while.
fn passes_here<R>(rt: &R, alloc: Global, own: u32) -> bool
where
    R: Threads + Sync + Files + Alloc + Env,
{
    match env::temp_dir(rt) {
        Ok(folder) => passes_in(rt, alloc, folder.as_str(), own),
        Err(_) => false,
    }
}

#[test]
fn files_of_the_system_are_read_and_written(rt: HostRuntime) {
    let own = process::id(rt.process());
    assert!(rt; passes_here(&rt, rt.alloc(), own));
}
