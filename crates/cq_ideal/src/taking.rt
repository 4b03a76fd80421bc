//! How the cells that arrive in a slot are taken in.
ghost use Rattle.std.specs.Prelude.{◌≡◌, Err, IfErr, OnErr, OnOk, length, map};
ghost use Rattle.cq_ideal.specs.Terms.{admitted, ranking, CanTakeIn, HasJudged, HasTakenIn};

use crate::limiter::Limiter;
use crate::newcomers::Newcomers;
use crate::ranks::Ranks;
use cq_base::{Arrivals, Slot, TagFault};
use cq_rank::Rank;

/// The arrivals of a slot are judged. Those that are admitted are ranked in order of input, and put into `came` in
/// place of what stood there, and those that are refused are counted.
///
/// The error is the first rank, in order of input, that does not fit 128 bits. Then nothing is counted, and it is told
/// neither what stands in `came` nor in which states the machines are.
pub fn take_in<R: Rank>(
    ranks: &mut Ranks<R>,
    limiter: &mut Limiter,
    came: &mut Newcomers,
    slot: Slot,
    arrivals: &Arrivals,
) -> Result<(), TagFault>
    requires { CanTakeIn (map R.machine ranks.old.fixed) arrivals.now limiter.old }
    ensures fixed { ranks.new.fixed ≡ ranks.old.fixed }
    ensures many { length ranks.new.states ≡ length ranks.old.states }
    ensures judged { HasJudged arrivals.now limiter.old limiter.new }
    ensures taken { OnOk result (HasTakenIn (map R.machine ranks.old.fixed) slot arrivals.now ranks.old ranks.new
        limiter.old limiter.new came.new) }
    ensures fault { IfErr result (λ fault. ranking (map R.machine ranks.old.fixed) slot 0
        (admitted limiter.new.marks arrivals.now) ranks.old.states ≡ Err fault) }
    ensures stays { OnErr result (limiter.new.refused ≡ limiter.old.refused) }
{
    limiter.judge(arrivals);
    ranks.take(slot, arrivals, limiter, came)?;
    limiter.count(arrivals);
    Ok(())
}
