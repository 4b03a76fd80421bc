//! A line of ample memory, and numbers at the ends of what is read.
use cq_lines::{Range, put_line, take_fields_within, take_number};
use std::alloc::Global;

// Whether the line has its fields behind its word, two below four, and one such or none.
fn has_fields(line: &[u8]) -> bool {
    let count = Range::between(0, 3);
    let slack = Range {
        or_none: true,
        ..count
    };
    let mut fields = [None; 3];
    let read = take_fields_within(line, &[count, count, slack], 0, &mut fields);
    matches!(read, Some((3, []))) && fields == [Some(3), Some(0), None]
}

// Whether a line is written, and its fields are read behind its word.
fn line_is_told(alloc: Global) -> bool {
    let mut text = Vec::new(alloc);
    let written = put_line(&mut text, b"input", &[Some(3), Some(0), None]);
    match text.get(5..) {
        Some(line) => {
            written.is_ok() && text.as_slice() == b"input 3 0 -\n".as_slice() && has_fields(line)
        }
        None => false,
    }
}

#[test]
fn a_line_is_written_and_its_fields_are_read(rt: HostRuntime) {
    assert!(rt; line_is_told(rt.alloc()));
}

const NUMBERS: &[(&[u8], Option<u128>)] = &[
    (b"0 ", Some(0)),
    (b"340282366920938463463374607431768211455", Some(u128::MAX)),
    (b"340282366920938463463374607431768211456", None),
    (b"01", None),
    (b"+1", None),
    (b" 1", None),
    (b"", None),
];

// Whether this number stands at the front of the text, or none.
fn has_number(row: &(&[u8], Option<u128>)) -> bool {
    let (text, number) = *row;
    match take_number(text) {
        Some((read, _)) => number == Some(read),
        None => number.is_none(),
    }
}

#[test]
fn a_number_is_digits_without_a_sign_or_a_leading_zero_of_at_most_128_bits(rt: HostRuntime) {
    for row in NUMBERS {
        assert!(rt; has_number(row));
    }
}
