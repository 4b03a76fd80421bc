//! The words at the start, and the bits of the word of claims.
ghost use Rattle.std.specs.Prelude.{◌≡◌, ◌<◌, ◌≤◌, ◌+◌, ◌^◌, ◌∷◌, ◌↔◌, take, replicate, IsTrue};
ghost use Rattle.cq_base.specs.Limits.{most_ports};
ghost use Rattle.cq_ledger.specs.Views.{bit};

use cq_base::{MOST_PORTS, Port};

// The most words of a ledger: that of the claims, and one for each output.
const MOST_WORDS: usize = MOST_PORTS + 1;

/// The words at the start, in the first places: nobody is claimed, and nobody has proposed.
pub(crate) fn first_words(ports: u16) -> [u64; MOST_WORDS]
    requires { ports ≤ most_ports }
    ensures { take (ports + 1) result ≡ 0 ∷ replicate ports ports }
{
    let mut words = filled(ports as u64);
    words[0] = 0;
    words
}

fn filled(word: u64) -> [u64; MOST_WORDS]
    ensures { result ≡ replicate (most_ports + 1) word }
{
    [word; MOST_WORDS]
}

/// The number with the bit of an input alone.
pub(crate) fn bit_of(input: Port) -> u64
    requires { input < 64 }
    ensures { result ≡ 2 ^ input }
{
    1 << input
}

/// Whether the number has the bit of an input.
#[tactic(auto, using(crate::proofs::Views::bit_tests), unfolding(crate::specs::Views::bit))]
pub(crate) fn has_bit(word: u64, input: Port) -> bool
    ensures { IsTrue result ↔ (bit word input ≡ 1) }
{
    input < 64 && (word >> input) & 1 == 1
}
