//! The words that are drawn.
ghost use Rattle.std.specs.Prelude.{◌≡◌, length, IfOk};
ghost use Rattle.cq_gen.specs.Draws.{first_draws};

use cq_base::NoMemory;
use rand_core::SeedableRng;
use rand_core::utils::NextWord;
use rand_pcg::Pcg32;
use std::alloc::Global;

/// The first words of the generator that is made from the seed. The error is want of memory.
#[tactic(auto, using(crate::proofs::Drawn::draw_steps), unfolding(crate::specs::Draws::generator_of))]
pub fn first_draws(alloc: Global, seed: u64, count: usize) -> Result<Vec<u32>, NoMemory>
    ensures words { IfOk result (λ words. words.items ≡ first_draws seed count) }
    ensures count { IfOk result (λ words. length words.items ≡ count) }
{
    let mut generator = Pcg32::seed_from_u64(seed);
    let mut words = Vec::with_capacity(alloc, count)?;
    'draws: while words.len() < count {
        let word = generator.next_word();
        words.push(word)?;
    }
    Ok(words)
}
