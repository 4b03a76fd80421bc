//! Shows what no clause says: that memory is enough for whole states, and what a worked one says.
use cq_lines::LineRefusal;
use cq_state::{State, read_text, text_of};
use cq_trial_kit::STATE;
use std::alloc::Global;

// A text, how many bytes are missing at its end, and its first wrong line.
type Row = (&'static str, usize, Option<u64>);

const TEXTS: &[Row] = &[
    (STATE, 0, None),
    (STATE, 4, Some(13)),
    (STATE, 1, Some(13)),
    ("", 0, Some(1)),
    ("cq-state 2\n", 0, Some(1)),
    ("cq-state 1\nnext 01\n", 0, Some(2)),
    ("cq-state 1\nnext 9223372036854775808\n", 0, Some(2)),
    ("cq-state 1\nnext 9223372036854775807\n", 0, Some(3)),
    (
        "cq-state 1\nnext 1\nshape 1 1 0 0\nsum 0 0\ninput 0 0 -\ninput 1 0 -\n",
        0,
        Some(6),
    ),
];

// Whether a text is refused at this line, or read where none is wrong.
fn is_refused_at(alloc: Global, text: &[u8], line: Option<u64>) -> bool {
    match read_text(alloc, text) {
        Ok(_) => line.is_none(),
        Err(LineRefusal::Line { line: at }) => line == Some(at),
        Err(LineRefusal::NoMemory) => false,
    }
}

// Whether it is, where so many bytes are missing at its end.
fn is_refused_without(alloc: Global, row: &Row) -> bool {
    let (text, missing, line) = *row;
    let text = text.as_bytes();
    match text.get(..text.len().saturating_sub(missing)) {
        Some(text) => is_refused_at(alloc, text, line),
        None => false,
    }
}

#[test]
fn wrong_texts_are_refused_at_their_first_wrong_line(rt: HostRuntime) {
    for row in TEXTS {
        assert!(rt; is_refused_without(rt.alloc(), row));
    }
}

// Whether a state tells of one cell in a buffer, and of a transfer in the second phase.
fn is_told(state: &State) -> bool {
    let buffered = state.buffered.as_slice();
    let moved = state.moved.as_slice().get(1);
    let told = (
        state.head.next,
        buffered.len(),
        buffered.get(0).map(|named| named.input),
        moved.map(|transfer| transfer.phase),
    );
    told == (1, 1, Some(1), Some(2))
}

// Whether a state is written as the text.
fn is_written(alloc: Global, state: &State) -> bool {
    match text_of(alloc, state) {
        Ok(text) => text.as_slice() == STATE.as_bytes(),
        Err(_) => false,
    }
}

// Whether the state is read, and is written again as it was.
fn is_written_again(alloc: Global) -> bool {
    match read_text(alloc, STATE.as_bytes()) {
        Ok(state) => is_told(&state) && is_written(alloc, &state),
        Err(_) => false,
    }
}

#[test]
fn a_state_is_read_and_written_again(rt: HostRuntime) {
    assert!(rt; is_written_again(rt.alloc()));
}
