//! The kinds of line of a state.
ghost use Rattle.std.specs.Prelude.{◌≡◌, ◌≢◌, ℕ, ◌≤◌, List, ◌++◌, length, take, Option, IfSome, IfNone, IsTrue, ◌↔◌};
ghost use Rattle.cq_lines.specs.Lines.{line, ending};
ghost use Rattle.cq_lines.specs.Ranges.{Within};
ghost use Rattle.cq_state.specs.StateText.{HasRoom, word, needed, is_free, ranges, further, between, count, count_or_none};

use cq_base::{LEVELS, MOST_CLASSES, MOST_PORTS};
use cq_lines::{Range, behind, take_fields_within};

/// A kind of line, in the order in which they stand.
#[derive(Clone, Copy)]
pub enum Kind {
    /// Which form of text it is.
    Version,
    /// How many slots are done.
    Next,
    /// The ports, the classes, the time of slot 0, and the cells of the schedule.
    Shape,
    /// The sum and the greatest number of proposals.
    Sum,
    /// An input's greatest length and least slack.
    Input,
    /// The numbers of an output's rank state.
    Rank,
    /// A cell in an input's list.
    Listed,
    /// A cell in an output's buffer.
    Buffered,
    /// A departure.
    Sent,
    /// A transfer.
    Moved,
    /// Nothing more.
    End,
}

/// The kinds, in the order in which their lines stand.
pub const KINDS: [Kind; 11] = [
    Kind::Version,
    Kind::Next,
    Kind::Shape,
    Kind::Sum,
    Kind::Input,
    Kind::Rank,
    Kind::Listed,
    Kind::Buffered,
    Kind::Sent,
    Kind::Moved,
    Kind::End,
];

// The greatest number of what is counted in a run.
const MOST: u128 = (1 << 63) - 1;

// The greatest number of packets and of cells of a packet.
const WIDE: u128 = (1 << 32) - 1;

// The most numbers of a rank state: one for each class, and one for each level.
const MOST_NUMBERS: usize = MOST_CLASSES + LEVELS;

/// The most fields of a line: an output, and the numbers of its rank state.
pub const MOST_FIELDS: usize = 1 + MOST_NUMBERS;

impl Kind {
    /// The word of its lines.
    pub fn word(self) -> &'static [u8]
        ensures { result.now ≡ word self }
    {
        match self {
            Kind::Version => b"cq-state",
            Kind::Next => b"next",
            Kind::Shape => b"shape",
            Kind::Sum => b"sum",
            Kind::Input => b"input",
            Kind::Rank => b"rank",
            Kind::Listed => b"list",
            Kind::Buffered => b"buffer",
            Kind::Sent => b"sent",
            Kind::Moved => b"moved",
            Kind::End => b"end",
        }
    }

    /// How many lines of it there are at least, in a switch of so many ports.
    pub fn needed(self, ports: u16) -> u64
        ensures { result ≡ needed ports self }
    {
        match self {
            Kind::Input | Kind::Rank => u64::from(ports),
            Kind::Listed | Kind::Buffered | Kind::Sent | Kind::Moved => 0,
            _ => 1,
        }
    }

    /// Whether there may be more of them.
    pub fn is_free(self) -> bool
        ensures { result ≡ is_free self }
    {
        matches!(
            self,
            Kind::Listed | Kind::Buffered | Kind::Sent | Kind::Moved
        )
    }
}

/// A line that is due.
#[derive(Clone, Copy)]
pub struct Due {
    /// Its kind.
    pub kind: Kind,
    /// Behind how many lines of its kind it comes.
    pub seen: u64,
    /// How many ports there are, or 0 where no line has told it.
    pub ports: u16,
}

impl Due {
    /// Whether there may be this line.
    fn has_room(self) -> bool
        ensures { IsTrue result ↔ HasRoom self.ports self.kind self.seen }
    {
        self.kind.is_free() || self.seen < self.kind.needed(self.ports)
    }
}

/// The fields of the line that is due, at the front, and what stands behind it. None where there may be no such line,
/// or none stands there.
pub fn take_due<'a>(
    due: Due,
    text: &'a [u8],
    to: &mut [Option<u128>; MOST_FIELDS],
) -> Option<(usize, &'a [u8])>
    ensures room { IfSome result (λ f. HasRoom due.ports due.kind due.seen) }
    ensures found { IfSome result (λ f. (f.0 ≤ length to.new)
        × Within (ranges due.ports due.seen due.kind) (further due.kind) (take f.0 to.new)
        × (text.now ≡ line (word due.kind) (take f.0 to.new) ++ f.1.now)) }
    ensures none { IfNone result ((fs : List (Option ℕ)) (more : List ℕ) → HasRoom due.ports due.kind due.seen →
        Within (ranges due.ports due.seen due.kind) (further due.kind) fs →
        text.now ≢ line (word due.kind) fs ++ more) }
{
    if !due.has_room() {
        return None;
    }
    let rest = behind(text, due.kind.word())?;
    take_due_fields(due, rest, to)
}

// The fields of the line that is due, behind its word.
fn take_due_fields<'a>(
    due: Due,
    text: &'a [u8],
    to: &mut [Option<u128>; MOST_FIELDS],
) -> Option<(usize, &'a [u8])>
    ensures found { IfSome result (λ f. (f.0 ≤ length to.new)
        × Within (ranges due.ports due.seen due.kind) (further due.kind) (take f.0 to.new)
        × (text.now ≡ ending (take f.0 to.new) ++ f.1.now)) }
    ensures none { IfNone result ((fs : List (Option ℕ)) (more : List ℕ) →
        Within (ranges due.ports due.seen due.kind) (further due.kind) fs → text.now ≢ ending fs ++ more) }
{
    let index = u128::from(due.seen);
    let own = Range::between(index, index);
    let count = Range::between(0, MOST);
    let count_or_none = Range {
        least: 0,
        most: MOST,
        or_none: true,
    };
    let level = Range::between(0, LEVELS as u128 - 1);
    let rank = Range::between(0, u128::MAX);
    let port = Range::between(0, u128::from(due.ports.saturating_sub(1)));
    let wide = Range::between(0, WIDE);
    match due.kind {
        Kind::Version => take_fields_within(text, &[Range::between(1, 1)], 0, to),
        Kind::Next => take_fields_within(text, &[count], 0, to),
        Kind::Shape => {
            let ports = Range::between(1, MOST_PORTS as u128);
            let classes = Range::between(1, MOST_CLASSES as u128);
            take_fields_within(text, &[ports, classes, count, count], 0, to)
        }
        Kind::Sum => take_fields_within(text, &[count, count], 0, to),
        Kind::Input => take_fields_within(text, &[own, count, count_or_none], 0, to),
        Kind::Rank => take_fields_within(text, &[own], MOST_NUMBERS, to),
        Kind::Listed | Kind::Buffered => {
            take_fields_within(text, &[level, rank, count, port], 0, to)
        }
        Kind::Sent => take_fields_within(text, &[count, level, rank, count, port], 0, to),
        Kind::Moved => {
            let phase = Range::between(1, 2);
            take_fields_within(text, &[count, phase, port, port, wide, wide], 0, to)
        }
        Kind::End => take_fields_within(text, &[], 0, to),
    }
}
