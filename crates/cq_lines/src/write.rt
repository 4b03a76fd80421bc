//! Lines put at the end of a text. The error of each is want of memory.
ghost use Rattle.std.specs.Prelude.{◌≡◌, ◌+◌, ◌<◌, ◌≤◌, ◌∷◌, ◌++◌, IfOk, OnErr, OnOk, length, take};
ghost use Rattle.cq_base.specs.Decimal.{decimal, field};
ghost use Rattle.cq_lines.specs.Lines.{line};

use cq_base::{MOST_DIGITS, NoMemory, digits};

// The bytes of a line that are gathered at most, since asking the text for room costs as much as writing a number.
const GATHERED: usize = 128;

// The most bytes of a field, and of what parts it from others: the blank before it, and the line feed at the end.
const FIELD: usize = MOST_DIGITS + 2;

/// Puts a line at the end of the text: its word, and its fields. The error is want of memory, and then the text is as
/// before.
pub fn put_line(text: &mut Vec<u8>, word: &[u8], fields: &[Option<u128>]) -> Result<(), NoMemory>
    ensures line { OnOk result (text.new.items ≡ text.old.items ++ line word.now fields.now) }
    ensures as_before { OnErr result (text.new.items ≡ text.old.items) }
{
    let before = text.len();
    if put_parts(text, word, fields).is_err() {
        text.truncate(before);
        return Err(NoMemory);
    }
    Ok(())
}

// The same, but that an error leaves what was put before memory ran out.
#[tactic(auto, using(crate::proofs::Walk::put_steps))]
fn put_parts(text: &mut Vec<u8>, word: &[u8], fields: &[Option<u128>]) -> Result<(), NoMemory>
    ensures line { OnOk result (text.new.items ≡ text.old.items ++ line word.now fields.now) }
    ensures before { OnErr result (take (length text.old.items) text.new.items ≡ text.old.items) }
{
    text.extend_from_slice(word)?;
    let mut bytes = [0; GATHERED];
    let mut end = 0;
    'fields: for field in fields {
        let at = make_room(text, &bytes, end)?;
        end = put_field(&mut bytes, at, *field);
    }
    bytes[end] = b'\n';
    text.extend_from_slice(&bytes[..end + 1])?;
    Ok(())
}

// Puts what is gathered at the end of the text where there is no room for one more field, and answers from which place
// on that field is to stand.
fn make_room(text: &mut Vec<u8>, bytes: &[u8; GATHERED], end: usize) -> Result<usize, NoMemory>
    requires { end < 128 }
    ensures text { IfOk result (λ at. text.new.items ++ take at bytes.now ≡ text.old.items ++ take end bytes.now) }
    ensures room { IfOk result (λ at. at + 41 ≤ 128) }
    ensures before { take (length text.old.items) text.new.items ≡ text.old.items }
{
    if end <= GATHERED - FIELD {
        return Ok(end);
    }
    text.extend_from_slice(&bytes[..end])?;
    Ok(0)
}

// Writes a field from a place on, behind a blank, and answers the place behind it. What stands before stays.
fn put_field(bytes: &mut [u8; GATHERED], at: usize, told: Option<u128>) -> usize
    requires { at + 41 ≤ 128 }
    ensures text { take result bytes.new ≡ take at bytes.old ++ 32 ∷ field told }
    ensures most { result < 128 }
    ensures long { length bytes.new ≡ 128 }
{
    bytes[at] = b' ';
    match told {
        Some(number) => put_number(bytes, at + 1, number),
        None => {
            bytes[at + 1] = b'-';
            at + 2
        }
    }
}

// Writes a number from a place on, where its most digits have room.
#[tactic(auto, using(crate::proofs::Walk::number_steps))]
fn put_number(bytes: &mut [u8; GATHERED], at: usize, number: u128) -> usize
    requires { at + 39 ≤ 128 }
    ensures text { take result bytes.new ≡ take at bytes.old ++ decimal number }
    ensures most { result ≤ at + 39 }
    ensures long { length bytes.new ≡ 128 }
{
    let mut places = [0; MOST_DIGITS];
    let count = digits(number, &mut places);
    bytes[at..at + MOST_DIGITS].copy_from_slice(&places);
    at + count
}
