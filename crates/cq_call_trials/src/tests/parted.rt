//! The state of a stopped run, and states that are refused.
use cq_trial_kit::STATE;
use cq_trials::{Call, DEFAULTS, Disk, Frame, Left, TWO_FOR_ONE, WRITTEN, leaves};
use std::alloc::Global;
use std::thread::Threads;

#[test]
fn a_stopped_run_writes_where_each_cell_is(rt: HostRuntime) {
    let call: Call = (&["part", "c.toml", "1", "s.txt"], (0, "", ""));
    let left: Left = (&[("s.txt", STATE.as_bytes())], &[]);
    assert!(rt; TWO_FOR_ONE.leaves(&rt, rt.alloc(), call, &[], left));
}

/// After how many slots a run stops.
const STOPS: &[&str] = &["0", "1", "2", "3", "9223372036854775807"];

#[test]
fn a_run_goes_on_after_any_slot_and_past_its_end(rt: HostRuntime) {
    for slots in STOPS {
        assert!(rt; TWO_FOR_ONE.goes_on(&rt, rt.alloc(), slots));
    }
}

/// A part of the state, what stands in its place, and the line of the state that comes of it.
type Changed = (&'static str, &'static str, &'static str);

const CHANGED: &[Changed] = &[
    ("end\n", "", "state: S1 at line 13\n"),
    ("cq-state 1\n", "cq-state 2\n", "state: S1 at line 1\n"),
    ("shape 2 1 0 2\n", "shape 2 1 0 3\n", "state: S2\n"),
    ("rank 0\n", "rank 0 7\n", "state: S2\n"),
    (
        "buffer 0 0 0 1\n",
        "buffer 0 0 1 1\n",
        "state: S3 clause 1\n",
    ),
    (
        "sent 0 0 0 0 0\n",
        "sent 1 0 0 0 0\n",
        "state: S3 clause 2\n",
    ),
    ("buffer 0 0 0 1\n", "list 0 0 0 1\n", "state: S3 clause 3\n"),
    ("buffer 0 0 0 1\n", "", "state: S3 clause 4\n"),
    (
        "buffer 0 0 0 1\n",
        "buffer 0 1 0 1\n",
        "state: S3 clause 6\n",
    ),
];

// Whether the state over these inputs is refused with the line, and nothing is written.
fn is_refused<R: Threads + Sync>(
    rt: &R,
    alloc: Global,
    inputs: &[&[Frame]],
    state: &str,
    line: &str,
) -> bool {
    let given: [(&str, &[u8]); 1] = [("s.txt", state.as_bytes())];
    let call: Call = (&["resume", "c.toml", "s.txt"], (9, "", line));
    let left: Left = (&given, WRITTEN);
    let disk = Disk::of_switch(alloc, inputs, 1, &DEFAULTS).holding(&given);
    leaves(rt, alloc, call, disk, left)
}

// Whether the text with that part changed is refused so, over the inputs of `TWO_FOR_ONE`.
fn is_changed_refused<R: Threads + Sync>(rt: &R, alloc: Global, case: &Changed) -> bool {
    let (part, other, line) = *case;
    let Some((front, back)) = STATE.split_once(part) else {
        return false;
    };
    match format!(in alloc; "{front}{other}{back}") {
        Ok(state) => is_refused(rt, alloc, TWO_FOR_ONE.inputs, &state, line),
        Err(_) => false,
    }
}

#[test]
fn a_state_that_is_refused_says_why_and_starts_no_file(rt: HostRuntime) {
    for case in CHANGED {
        assert!(rt; is_changed_refused(&rt, rt.alloc(), case));
    }
}

// One packet of two cells.
const TWO_CELLS: &[&[Frame]] = &[&[(0, 0, 0, 128)]];

const OVERTAKEN: &str =
    "cq-state 1\nnext 2\nshape 1 1 0 2\nsum 0 0\ninput 0 1 0\nrank 0\nbuffer 0 0 0 0\n\
    sent 1 0 0 1 0\nend\n";

#[test]
fn a_state_whose_cell_was_overtaken_in_its_flow_is_refused(rt: HostRuntime) {
    let line = "state: S3 clause 5\n";
    assert!(rt; is_refused(&rt, rt.alloc(), TWO_CELLS, OVERTAKEN, line));
}
