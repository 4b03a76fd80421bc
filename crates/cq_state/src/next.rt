//! The next line of a state's text.
ghost use Rattle.std.specs.Prelude.{◌≡◌, ◌≢◌, ℕ, ◌+◌, ◌<◌, ◌≤◌, ◌^◌, ◌↔◌, List, ◌++◌, length, take, get_or, unwrap_or, Option, None, IfSome, IfNone, IsTrue};
ghost use Rattle.cq_lines.specs.Lines.{line};
ghost use Rattle.cq_state.specs.declared.kind.Kind.TheVariants.{Shape};
ghost use Rattle.cq_state.specs.StateText.{Line, ComesAt, ports_behind, spelled, start, MayEnd};
ghost use Rattle.cq_state.specs.Places.{place_of};

use crate::kind::{Due, KINDS, Kind, MOST_FIELDS, take_due};

/// Where a line comes: which kinds are due, in order, how many lines of the first of them stand there, and
/// how many ports there are.
#[derive(Clone, Copy)]
pub struct Place {
    /// The kinds that are due.
    pub due: &'static [Kind],
    /// How many lines of the first of them stand there.
    pub seen: u64,
    /// How many ports there are, or 0 where no line has told it.
    pub ports: u16,
}

impl Place {
    /// Where the first line comes.
    pub fn first() -> Place
        ensures { place_of result ≡ start }
    {
        Place {
            due: &KINDS,
            seen: 0,
            ports: 0,
        }
    }

    /// Whether the text may end there.
    pub fn may_end(&self) -> bool
        ensures { IsTrue result ↔ MayEnd (place_of self.now) }
    {
        let mut due = self.due;
        let mut seen = self.seen;
        'kinds: while let Some((kind, later)) = due.split_first() {
            if seen < kind.needed(self.ports) {
                return false;
            }
            due = later;
            seen = 0;
        }
        true
    }
}

/// The next line: its kind, how many fields it has, where the line behind it comes, and what stands behind
/// it. None where no line that may come stands at the front.
pub fn next_line<'a>(
    place: Place,
    text: &'a [u8],
    to: &mut [Option<u128>; MOST_FIELDS],
) -> Option<(Kind, usize, Place, &'a [u8])>
    requires { place.seen + length text.now < 2 ^ 64 }
    ensures found { IfSome result (λ f. (f.1 ≤ length to.new)
        × ComesAt place.due.now place.seen place.ports (record { kind = f.0; fields = take f.1 to.new }) (place_of f.2)
        × (text.now ≡ spelled (record { kind = f.0; fields = take f.1 to.new }) ++ f.3.now)) }
    ensures shorter { IfSome result (λ f. length f.3.now < length text.now) }
    ensures seen { IfSome result (λ f. f.2.seen + length f.3.now ≤ place.seen + length text.now) }
    ensures few { IfSome result (λ f. f.2.ports < 2 ^ 16) }
    ensures none { IfNone result ((x : Line) (next : Rattle.cq_state.specs.StateText.Place) (more : List ℕ) →
        ComesAt place.due.now place.seen place.ports x next → text.now ≢ spelled x ++ more) }
{
    let ports = place.ports;
    let mut due = place.due;
    let mut seen = place.seen;
    'kinds: while let Some((kind, later)) = due.split_first() {
        let line = Due {
            kind: *kind,
            seen,
            ports,
        };
        if let Some((count, rest)) = take_due(line, text, to) {
            let place = Place {
                due,
                seen: seen + 1,
                ports: ports_told(ports, *kind, &to[..count]),
            };
            return Some((*kind, count, place, rest));
        }
        if seen < kind.needed(ports) {
            return None;
        }
        due = later;
        seen = 0;
    }
    None
}

// How many ports there are behind a line with these fields.
fn ports_told(ports: u16, kind: Kind, fields: &[Option<u128>]) -> u16
    requires { kind ≡ Shape → unwrap_or (get_or fields.now 0 None) 0 < 2 ^ 16 }
    ensures { result ≡ ports_behind ports kind fields.now }
{
    match (kind, fields.first()) {
        (Kind::Shape, Some(told)) => told.unwrap_or(0) as u16,
        (Kind::Shape, None) => 0,
        _ => ports,
    }
}
