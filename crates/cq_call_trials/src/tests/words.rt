//! Words that are no command, and commands that are refused before they write.
use cq_trial_kit::HEADER;
use cq_trials::{Disk, Left, MICROSECONDS, leaves_within};
use std::alloc::Global;
use std::thread::Threads;

/// The line of words that are no command.
pub(super) const USAGE: &str =
    "usage: cq_switch pass IN OUT | check CONFIG | ideal CONFIG | run CONFIG | soak SEED PORTS SLOTS | audit CONFIG | part CONFIG SLOTS STATE | resume CONFIG STATE | stream CONFIG\n";

/// Words, the code of their status, and the line. More words that are no command stand in `cq_byte_trials`.
type Refusal = (&'static [&'static str], u8, &'static str);

const REFUSALS: &[Refusal] = &[
    (&[], 1, USAGE),
    (&["help"], 1, USAGE),
    (&["run"], 1, USAGE),
    (&["run", "a", "b"], 1, USAGE),
    (&["pass", "-a", "b"], 1, USAGE),
    (&["pass", "a", "b", "c"], 1, USAGE),
    (&["soak", "1", "65", "10"], 1, USAGE),
    (&["soak", "1", "8", "0"], 1, USAGE),
    (&["soak", "+1", "8", "10"], 1, USAGE),
    (&["part", "a", "9223372036854775808", "b"], 1, USAGE),
    // A command of the call that may read ahead alone.
    (&["stream", "c.toml"], 1, USAGE),
    (&["pass", "c", "b"], 3, "capture of input 0: 1\n"),
    (&["pass", "d", "b"], 5, "read fault: d\n"),
];

/// What `b` holds before and afterwards, or that it is not there, and how much of the line standard error takes.
type Place = (Left<'static>, u64);

const PLACES: &[Place] = &[
    ((&[], &["b"]), 180),
    ((&[("b", b"kept")], &[]), 7),
    ((&[], &["b"]), 0),
];

fn is_refused<R: Threads + Sync>(rt: &R, alloc: Global, refusal: &Refusal, place: &Place) -> bool {
    let (words, code, line) = *refusal;
    let (left, room) = *place;
    let captures: [(&str, &[u8]); 2] = [("a", &MICROSECONDS), ("c", &HEADER[..23])];
    let disk = Disk::new(alloc).holding(&captures).holding(left.0);
    leaves_within(rt, alloc, (words, (code, "", line)), disk, (0, room), left)
}

#[test]
fn a_refusal_says_why_and_starts_no_file(rt: HostRuntime) {
    for refusal in REFUSALS {
        for place in PLACES {
            assert!(rt; is_refused(&rt, rt.alloc(), refusal, place));
        }
    }
}
