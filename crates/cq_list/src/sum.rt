//! How many places some blocks have, and how many of them are each output's.
ghost use Rattle.std.specs.Prelude.{◌≡◌, ℕ, ◌+◌, ◌<◌, ◌∷◌, [], length};
ghost use Rattle.cq_base.specs.Limits.{most_ports};
ghost use Rattle.cq_list.specs.Sums.{HasLess, HasMore, HasRoom, HasThese, own_in};

use crate::block::Block;
use cq_base::{MOST_PORTS, Port};
use std::marker::Model;

/// How many places some blocks have, and how many of them are each output's. Contracts see both.
#[derive(Drop)]
pub struct Sum {
    places: usize,
    counts: [usize; MOST_PORTS],
}

impl Model for Sum {
    ghost use Rattle.cq_list.specs.Sums.{SumView};

    ghost Value = { SumView };

    ghost view = { λ s. record { places = s.places; counts = s.counts } };
}

impl Sum {
    /// That of no blocks.
    pub fn none() -> Sum
        ensures places { result.places ≡ 0 }
        ensures counts { (j : ℕ) → own_in result j ≡ 0 }
        ensures each { length result.counts ≡ most_ports }
    {
        Sum {
            places: 0,
            counts: [0; MOST_PORTS],
        }
    }

    /// How many places there are.
    pub fn places(&self) -> usize
        ensures { result ≡ self.now.places }
    {
        self.places
    }

    /// How many of the places are an output's.
    pub fn count(&self, output: Port) -> usize
        ensures { result ≡ own_in self.now output }
    {
        match self.counts.get(output as usize) {
            None => 0,
            Some(count) => *count,
        }
    }

    /// A place of an output more.
    pub fn put(&mut self, output: Port)
        requires in_range { output < most_ports }
        requires room { HasRoom self.old (output ∷ []) }
        ensures { HasMore self.old self.new (output ∷ []) }
    {
        self.places += 1;
        self.counts[output as usize] += 1;
    }

    /// A place of an output less.
    pub fn take(&mut self, output: Port)
        requires in_range { output < most_ports }
        requires some { HasThese self.old (output ∷ []) }
        ensures { HasLess self.old self.new (output ∷ []) }
    {
        self.places -= 1;
        self.counts[output as usize] -= 1;
    }

    /// The places of a block more.
    pub fn add(&mut self, block: &Block)
        requires { HasRoom self.old block.now }
        ensures { HasMore self.old self.new block.now }
    {
        self.places += block.len();
        'outputs: for output in 0..MOST_PORTS {
            self.counts[output] += block.count(output as Port);
        }
    }

    /// The places of a block less.
    pub fn subtract(&mut self, block: &Block)
        requires { HasThese self.old block.now }
        ensures { HasLess self.old self.new block.now }
    {
        self.places -= block.len();
        'outputs: for output in 0..MOST_PORTS {
            self.counts[output] -= block.count(output as Port);
        }
    }
}
