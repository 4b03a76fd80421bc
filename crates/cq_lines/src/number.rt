//! Numbers at the front of a text.
ghost use Rattle.std.specs.Prelude.{◌≡◌, ℕ, ◌+◌, ◌*◌, ◌<◌, ◌≤◌, ◌^◌, ◌⊎◌, List, ◌∷◌, Some, IfSome, IfNone};
ghost use Rattle.cq_lines.specs.Lines.{BeginsWith, EndsDigits};

// Ten times a number below this, and a digit, is below 2^64.
const LONG: u128 = 1 << 60;

/// The number at the front, and what stands behind its digits. None where the text begins with no number
/// of 128 bits in decimal digits without leading zeros.
pub fn take_number(text: &[u8]) -> Option<(u128, &[u8])>
    ensures found { IfSome result (λ f. BeginsWith text.now (Some f.0) f.1.now) }
    ensures none { IfNone result ((n : ℕ) (rest : List ℕ) → n < 2 ^ 128 → BeginsWith text.now (Some n) rest → ⊥) }
{
    let (first, mut rest) = take_digit(text)?;
    let mut number = u128::from(first);
    'digits: while let Some((digit, after)) = take_digit(rest) {
        number = with_digit(number, digit)?;
        rest = after;
    }
    Some((number, rest))
}

// The digit at the front, by its value, and what stands behind it.
fn take_digit(text: &[u8]) -> Option<(u8, &[u8])>
    ensures found { IfSome result (λ f. (f.0 < 10) × (text.now ≡ (48 + f.0) ∷ f.1.now)) }
    ensures none { IfNone result (EndsDigits text.now) }
{
    match text {
        [digit @ b'0'..=b'9', rest @ ..] => Some((*digit - b'0', rest)),
        _ => None,
    }
}

// The number with one more digit behind its own. None behind a 0, and where it takes more than 128 bits.
fn with_digit(number: u128, digit: u8) -> Option<u128>
    ensures found { IfSome result (λ n. (0 < number) × (n ≡ number * 10 + digit)) }
    ensures none { IfNone result ((number ≡ 0) ⊎ (2 ^ 128 ≤ number * 10 + digit)) }
{
    if number == 0 {
        return None;
    }
    if number < LONG {
        return Some(u128::from(number as u64 * 10 + u64::from(digit)));
    }
    number.checked_mul(10)?.checked_add(u128::from(digit))
}
