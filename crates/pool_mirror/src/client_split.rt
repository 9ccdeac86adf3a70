// A reward split among clients.
ghost use Rattle.std.specs.Prelude.{◌≡◌, length};
ghost use Rattle.split.specs.Split.{split_call, split_parts};
ghost use Rattle.pool_mirror.specs.Answers.{number_of};

use crate::number;
use split::split;

// A reward is split by weight, to the smallest unit; no pool is read. Each client's part goes to the place of its weight.
#[tactic(auto, unfolding(types::specs::Base::acceptance))]
#[unsafe(no_mangle)]
pub extern "C" fn pool_mirror_split(reward: u64, weights: &[u64], parts: &mut [u64]) -> u64
    ensures value { result ≡ number_of (split_call reward weights.now (length parts.old)) }
    ensures parts_after { parts.new ≡ split_parts reward weights.now parts.old }
{
    number(split(reward, weights, parts))
}
