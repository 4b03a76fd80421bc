//! Numbers in words.
ghost use Rattle.std.specs.Prelude.{◌≡◌, ◌≤◌, IfSome, None, Some, if◌then◌else◌};
ghost use Rattle.cq_words.specs.Numbers.{is_numeral, number_from, value_of};

// The most digits of a number: as many as the greatest of 64 bits has.
const MOST_NUMERAL_DIGITS: usize = 20;

/// The number that the text writes, where it is 1 to 20 digits with a value from `least` to `most`.
pub fn number(text: &str, least: u64, most: u64) -> Option<u64>
    ensures value { result ≡ number_from least most text.now }
    ensures within { IfSome result (λ n. n ≤ most) }
{
    let value = numeral(text.as_bytes())?;
    if value < u128::from(least) || value > u128::from(most) {
        return None;
    }
    Some(value as u64)
}

// The value of a text of 1 to 20 digits, and None of any other text.
fn numeral(text: &[u8]) -> Option<u128>
    ensures { result ≡ (if is_numeral text.now then Some (value_of text.now) else None) }
{
    if text.is_empty() || text.len() > MOST_NUMERAL_DIGITS {
        return None;
    }
    let mut value: u128 = 0;
    for digit in text {
        if !digit.is_ascii_digit() {
            return None;
        }
        value = value * 10 + u128::from(*digit - b'0');
    }
    Some(value)
}
