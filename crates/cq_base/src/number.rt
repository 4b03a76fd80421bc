//! Numbers in decimal digits, for every text that the program writes.
//!
//! They are written into an array of the caller's, so that a line can be told where there is no
//! memory left.
ghost use Rattle.std.specs.Prelude.{◌≡◌, ◌≤◌, ◌++◌, length, drop};
ghost use Rattle.cq_base.specs.Decimal.{decimal};

/// The most decimal digits that a number of 128 bits has.
pub const MOST_DIGITS: usize = 39;

/// Writes the number at the front in decimal ASCII digits, without leading zeros, and answers how
/// many there are. The bytes after them stay as they were. No number has more than 39 digits.
pub fn digits(n: u128, to: &mut [u8; MOST_DIGITS]) -> usize
    ensures count { result ≡ length (decimal n) }
    ensures most { result ≤ 39 }
    ensures text { to.new ≡ decimal n ++ drop result to.old }
{
    if n <= u128::from(u64::MAX) {
        return short_digits(n as u64, to);
    }
    let before = digits(n / 10, to);
    to[before] = b'0' + (n % 10) as u8;
    before + 1
}

// The same of a number below 2^64, as most are: 64 bits are divided in a few instructions, 128 by a call. The digits
// are written from the last to the first.
fn short_digits(n: u64, to: &mut [u8; MOST_DIGITS]) -> usize
    ensures count { result ≡ length (decimal n) }
    ensures text { to.new ≡ decimal n ++ drop result to.old }
{
    let count = count_of(n);
    let mut left = n;
    let mut end = count;
    'places: while left >= 10 {
        end -= 1;
        to[end] = b'0' + (left % 10) as u8;
        left /= 10;
    }
    to[0] = b'0' + left as u8;
    count
}

// How many decimal digits the number has.
#[tactic(auto, using(crate::proofs::Decimals::count_steps))]
fn count_of(n: u64) -> usize
    ensures count { result ≡ length (decimal n) }
    ensures most { result ≤ 39 }
{
    n.checked_ilog10().unwrap_or(0) as usize + 1
}
