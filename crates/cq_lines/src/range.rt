//! The ranges in which the fields of a line must be.
ghost use Rattle.std.specs.Prelude.{◌≡◌, ◌≢◌, ◌↔◌, ℕ, ◌+◌, ◌≤◌, List, ◌++◌, length, take, get_or, Option, IfSome, IfNone, IsTrue, false};
ghost use Rattle.cq_lines.specs.Lines.{ending};
ghost use Rattle.cq_lines.specs.Ranges.{InRange, Within, any_number};

use crate::take_fields;

/// The numbers from the least to the most, and `-` where that may be.
#[derive(Clone, Copy)]
pub struct Range {
    /// The least number.
    pub least: u128,
    /// The greatest number.
    pub most: u128,
    /// Whether `-` may stand there.
    pub or_none: bool,
}

impl Range {
    /// The numbers from one to another.
    pub fn between(least: u128, most: u128) -> Range
        ensures { result ≡ record { least = least; most = most; or_none = false } }
    {
        Range {
            least,
            most,
            or_none: false,
        }
    }

    fn has(&self, field: Option<u128>) -> bool
        ensures { IsTrue result ↔ InRange self.now field }
    {
        match field {
            Some(number) => self.least <= number && number <= self.most,
            None => self.or_none,
        }
    }
}

// The range at a place: behind the last, any number.
fn range_at(ranges: &[Range], place: usize) -> Range
    ensures { result ≡ get_or ranges.now place any_number }
{
    match ranges.get(place) {
        Some(range) => *range,
        None => Range::between(0, u128::MAX),
    }
}

// Whether there is a field for each range and within it, and behind them so many further numbers at most.
fn are_within(fields: &[Option<u128>], ranges: &[Range], further: usize) -> bool
    ensures { IsTrue result ↔ Within ranges.now further fields.now }
{
    if fields.len() < ranges.len() || fields.len() - ranges.len() > further {
        return false;
    }
    'fields: for place in 0..fields.len() {
        if !range_at(ranges, place).has(fields[place]) {
            return false;
        }
    }
    true
}

/// As `take_fields`, of a line that has a field in each of these ranges, in order, and behind them so many
/// further numbers at most. None where no such line stands at the front.
pub fn take_fields_within<'a>(
    text: &'a [u8],
    ranges: &[Range],
    further: usize,
    to: &mut [Option<u128>],
) -> Option<(usize, &'a [u8])>
    requires { length ranges.now + further ≤ length to.old }
    ensures found { IfSome result (λ f. (f.0 ≤ length to.new) × Within ranges.now further (take f.0 to.new)
        × (text.now ≡ ending (take f.0 to.new) ++ f.1.now)) }
    ensures none { IfNone result ((fs : List (Option ℕ)) (rest : List ℕ) →
        Within ranges.now further fs → text.now ≢ ending fs ++ rest) }
{
    let (count, rest) = take_fields(text, to)?;
    if are_within(&to[..count], ranges, further) {
        Some((count, rest))
    } else {
        None
    }
}
