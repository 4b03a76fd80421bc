//! What follows from what the outputs sent.
ghost use Rattle.std.specs.Prelude.{◌≡◌, ◌<◌, ◌≤◌, ℕ, IfSome, length, map, slice_index_or};
ghost use Rattle.cq_fabric.specs.Terms.{all_told, came_to, most_ports, HasReleased};

use cq_base::{Port, Queued};
use cq_ideal::{Limiter, Ranks};
use cq_rank::Rank;

/// Each machine is told what its output sent in the slot that ends, or that it was idle.
#[tactic(auto, using(crate::proofs::Changed::told_steps))]
pub fn tell<R: Rank>(ranks: &mut Ranks<R>, gone: &[Option<Queued>])
    requires few { length gone.now ≤ most_ports }
    requires outputs { length gone.now ≡ length ranks.old.fixed }
    requires states { length ranks.old.states ≡ length ranks.old.fixed }
    ensures fixed { ranks.new.fixed ≡ ranks.old.fixed }
    ensures states { ranks.new.states ≡ all_told (map R.machine ranks.old.fixed) gone.now ranks.old.states }
{
    'outputs: for (output, queued) in gone.iter().enumerate() {
        ranks.told(output as Port, *queued);
    }
}

/// Each output holds the cell that it sent no longer.
pub fn release(limiter: &mut Limiter, gone: &[Option<Queued>])
    requires few { length gone.now ≤ most_ports }
    requires outputs { length gone.now ≡ length limiter.old.held }
    requires holds { (j : ℕ) → IfSome (came_to gone.now j) (λ _. 0 < slice_index_or limiter.old.held j 0) }
    ensures { HasReleased gone.now limiter.old limiter.new }
{
    'outputs: for (output, queued) in gone.iter().enumerate() {
        limiter.sent(output as Port, *queued);
    }
}
