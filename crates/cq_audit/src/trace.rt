//! Compares a trace of any maker with the ideal one.
ghost use Rattle.std.specs.Prelude.{◌≡◌, ℕ, List, ◌∷◌, IfSome, IfNone, MatchOption};
ghost use Rattle.cq_audit.specs.Terms.{DiffersFirst};

/// The first line, from 1, in which the trace differs from the ideal one. None exactly where both are equal.
/// Where one of them ends and the other goes on, this is the line that goes on.
pub fn audit_trace(trace: &[u8], ideal: &[u8]) -> Option<u64>
    ensures { MatchOption result (trace.now ≡ ideal.now) (DiffersFirst trace.now ideal.now) }
{
    let mut left = trace;
    let mut right = ideal;
    let mut line: u64 = 1;
    'bytes: while let Some((byte, rest, other)) = same_byte(left, right) {
        if byte == b'\n' {
            line += 1;
        }
        left = rest;
        right = other;
    }
    if left.is_empty() && right.is_empty() {
        None
    } else {
        Some(line)
    }
}

// The byte with which both begin, and what stands behind it in each.
fn same_byte<'a, 'b>(left: &'a [u8], right: &'b [u8]) -> Option<(u8, &'a [u8], &'b [u8])>
    ensures found { IfSome result (λ f. (left.now ≡ f.0 ∷ f.1.now) × (right.now ≡ f.0 ∷ f.2.now)) }
    ensures none { IfNone result ((c : ℕ) (x y : List ℕ) → left.now ≡ c ∷ x → right.now ≡ c ∷ y → ⊥) }
{
    match (left, right) {
        ([byte, rest @ ..], [other, behind @ ..]) if byte == other => Some((*byte, rest, behind)),
        _ => None,
    }
}
