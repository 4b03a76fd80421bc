//! A few places of a list, with their counts.
ghost use Rattle.std.specs.Prelude.{◌≡◌, ◌+◌, ◌<◌, ◌≤◌, ◌++◌, [], Some, length, take, insert, remove, slice_get};
ghost use Rattle.cq_base.specs.Limits.{most_ports};
ghost use Rattle.cq_list.specs.Split.{is_output, place_of_nth, count_of};
ghost use Rattle.cq_list.specs.Block.{half_places, most_places};

use arrayvec::ArrayVec;
use cq_base::{MOST_PORTS, Port};
use std::marker::Model;

/// The most places of a block.
pub const MOST_PLACES: usize = 64;

/// The places of each half of a full block.
pub const HALF_PLACES: usize = MOST_PLACES / 2;

/// At most 64 places of a list, each with its output, and how many of them are each output's. Contracts see the
/// outputs.
#[derive(Drop)]
pub struct Block {
    places: ArrayVec<Port, MOST_PLACES>,
    counts: [u8; MOST_PORTS],
}

impl Model for Block {
    ghost use Rattle.std.specs.Prelude.{ℕ, List};

    ghost Value = { List ℕ };

    ghost use Rattle.cq_list.specs.Block.{AreCounts};

    ghost view = { λ b. b.places.items };

    ghost invariant = { λ b. AreCounts b.places.items b.counts };
}

// The place of an output that has so many of its places ahead, or the number of places where there is none.
#[tactic(auto, using(crate::proofs::Nth::nth_steps))]
fn nth(places: &[Port], output: Port, ahead: usize) -> usize
    ensures { result ≡ place_of_nth (is_output output) ahead places.now }
{
    let mut left = ahead;
    'places: for (place, other) in places.iter().enumerate() {
        if *other == output {
            if left == 0 {
                return place;
            }
            left -= 1;
        }
    }
    places.len()
}

impl Block {
    /// No place.
    pub fn new() -> Block
        ensures { result ≡ [] }
    {
        Block {
            places: ArrayVec::new(),
            counts: [0; MOST_PORTS],
        }
    }

    /// How many places there are.
    pub fn len(&self) -> usize
        ensures len { result ≡ length self.now }
        ensures fits { result ≤ most_places }
    {
        self.places.len()
    }

    /// The outputs of the places, in order.
    pub fn outputs(&self) -> &[Port]
        ensures { result.now ≡ self.now }
    {
        self.places.as_slice()
    }

    /// The output of a place.
    #[tactic(auto, using(crate::proofs::Counts::in_range_at))]
    pub fn at(&self, place: usize) -> Port
        requires { place < length self.now }
        ensures output { slice_get self.now place ≡ Some result }
        ensures in_range { result < most_ports }
    {
        self.places.as_slice()[place]
    }

    /// How many of the places are an output's.
    #[tactic(auto, using(crate::proofs::Counts::count_beyond))]
    pub fn count(&self, output: Port) -> usize
        ensures { result ≡ count_of output self.now }
    {
        match self.counts.get(output as usize) {
            None => 0,
            Some(count) => *count as usize,
        }
    }

    /// How many of the places ahead of this one are an output's.
    pub fn count_ahead(&self, output: Port, place: usize) -> usize
        requires { place ≤ length self.now }
        ensures { result ≡ count_of output (take place self.now) }
    {
        self.places.as_slice()[..place]
            .iter()
            .filter(|other| **other == output)
            .count()
    }

    /// The place of an output that has so many of its places ahead, or the number of places where there is none.
    pub fn place_of(&self, output: Port, ahead: usize) -> usize
        ensures { result ≡ place_of_nth (is_output output) ahead self.now }
    {
        nth(self.places.as_slice(), output, ahead)
    }

    /// Puts a place of an output in.
    #[tactic(auto, using(crate::proofs::Counts::count_fits))]
    pub fn insert(&mut self, place: usize, output: Port)
        requires inside { place ≤ length self.old }
        requires room { length self.old < most_places }
        requires in_range { output < most_ports }
        ensures { self.new ≡ insert self.old place output }
    {
        self.counts[output as usize] += 1;
        self.places.insert(place, output);
    }

    /// Takes a place out, and answers its output.
    #[tactic(auto, using(crate::proofs::Counts::count_some, crate::proofs::Counts::in_range_at))]
    pub fn remove(&mut self, place: usize) -> Port
        requires { place < length self.old }
        ensures output { slice_get self.old place ≡ Some result }
        ensures in_range { result < most_ports }
        ensures rest { self.new ≡ remove self.old place }
    {
        let output = self.places.remove(place);
        self.counts[output as usize] -= 1;
        output
    }

    /// Puts the places of another block behind its own.
    #[tactic(auto, using(crate::proofs::Counts::append_steps))]
    pub fn append(&mut self, more: &Block)
        requires { length self.old + length more.now ≤ most_places }
        ensures { self.new ≡ self.old ++ more.now }
    {
        'moved: for place in 0..more.len() {
            self.insert(self.len(), more.at(place));
        }
    }

    /// Takes the last 32 places of a full block out, into a block of their own.
    #[tactic(auto, using(crate::proofs::Counts::moved_over))]
    pub fn split_off(&mut self) -> Block
        requires { length self.old ≡ most_places }
        ensures whole { self.old ≡ self.new ++ result }
        ensures front { length self.new ≡ half_places }
        ensures back { length result ≡ half_places }
    {
        let mut back = Block::new();
        'moved: for _ in 0..HALF_PLACES {
            let output = self.remove(self.len() - 1);
            back.insert(0, output);
        }
        back
    }
}
