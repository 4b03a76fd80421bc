//! Who proposes next.
ghost use Rattle.std.specs.Prelude.{◌+◌, ◌<◌, ◌≡◌, length};

use cq_base::Port;

/// Chooses which of the free inputs proposes next. Nothing more is promised of the choice: what comes of the
/// proposals does not depend on it.
pub trait Order {
    /// The place in `free` of the input that proposes next.
    fn choose(&mut self, free: &[Port]) -> usize
        requires { 0 < length free.now }
        ensures { result < length free.now };
}

/// The free input of the lowest number proposes next.
#[derive(Clone, Copy, Debug)]
pub struct LowestFirst;

impl Order for LowestFirst {
    /// The first place.
    fn choose(&mut self, _free: &[Port]) -> usize
        requires { 0 < length _free.now }
        ensures first { result ≡ 0 }
    {
        0
    }
}

/// The free input of the greatest number proposes next. As it stands last among the free ones, none of the others moves
/// when it is taken out.
#[derive(Clone, Copy, Debug)]
pub struct LastFirst;

impl Order for LastFirst {
    /// The last place.
    fn choose(&mut self, free: &[Port]) -> usize
        requires { 0 < length free.now }
        ensures last { result + 1 ≡ length free.now }
    {
        free.len() - 1
    }
}
