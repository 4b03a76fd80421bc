//! T0, the stamp from which slots are counted.
ghost use Rattle.std.specs.Prelude.{◌≡◌, map, min};
ghost use Rattle.std.specs.List.{reduce};
ghost use Rattle.cq_cells.specs.Terms.{earlier, t0_of};

use cq_pcap::{Capture, PacketRow};

/// The least stamp of all captures, in nanoseconds, or 0 where there is no packet.
#[tactic(auto, using(crate::proofs::Stamps::stamp_steps), unfolding(crate::specs::Schedule::t0_of))]
pub fn t0_of(captures: &[Capture]) -> u64
    ensures { result ≡ t0_of captures.now }
{
    let mut first = None;
    'captures: for capture in captures {
        first = earlier(first, earliest(capture.rows()));
    }
    first.unwrap_or(0)
}

// The least stamp of a capture, if it has a packet.
fn earliest(rows: &[PacketRow]) -> Option<u64>
    ensures { result ≡ reduce min (map (λ row. row.stamp) rows.now) }
{
    rows.iter().map(|row| row.stamp).min()
}

/// The lesser of two numbers, or the one that there is.
pub fn earlier(a: Option<u64>, b: Option<u64>) -> Option<u64>
    ensures { result ≡ earlier a b }
{
    match (a, b) {
        (Some(a), Some(b)) => Some(a.min(b)),
        (Some(a), None) => Some(a),
        (None, b) => b,
    }
}
