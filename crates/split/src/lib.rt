// Request [1] of document 02: a reward split among clients by weight, to the smallest unit.
#![tactic(auto)]

ghost use Rattle.std.specs.Prelude.{◌≡◌, ◌*◌, ◌/◌, ◌%◌, ◌<◌, ◌≤◌, length};
ghost use Rattle.types.specs.Base.{outcome_of, acceptance};
ghost use Rattle.types.specs.Wide.{fit_of};
ghost use Rattle.split.specs.Split.{weight_sum, parts_of, split_call, split_parts};
ghost use Rattle.split.specs.Steps.{Checked, Floored, ThresholdOf, Room, Given};

use types::mul_div::{Divided, mul_div};
use types::refusals::Refusal;

// A reward is split among at most so many clients.
pub const MAX_WEIGHTS: usize = 64;

// The smallest remainder that a unit is left for, and how many units are left for the clients that have just that one.
#[derive(Clone, Copy, Debug, PartialEq, Eq)]
struct Threshold {
    remainder: u64,
    units: u64,
}

impl Threshold {
    // Of n remainders, for the units left.
    fn of(mut remainders: [u64; MAX_WEIGHTS], n: usize, left: u64) -> Threshold
        requires { (0 < left) × (left ≤ n) × (n ≤ MAX_WEIGHTS) }
        ensures { ThresholdOf remainders n left result }
    {
        let (_, least, above) = remainders[..n].select_nth_unstable(n - left as usize);
        let remainder = *least;
        let larger = above.iter().filter(|r| remainder < **r).count();
        Threshold {
            remainder,
            units: left - larger as u64,
        }
    }
}

// The weights' sum, where it is a word.
#[tactic(auto, using(crate::proofs::StepLaws::sums))]
fn weight_sum(weights: &[u64]) -> Option<u64>
    ensures { result ≡ fit_of (weight_sum weights.now) }
{
    let mut sum: u64 = 0;
    for weight in weights {
        sum = sum.checked_add(*weight)?;
    }
    Some(sum)
}

// One client's part, rounded down, and what rounding keeps back.
#[tactic(auto, using(crate::proofs::StepLaws::share_is))]
fn share_of(reward: u64, weight: u64, sum: u64) -> Divided
    requires { (weight ≤ sum) × (0 < sum) }
    ensures { (result.quotient ≡ reward * weight / sum) × (result.remainder ≡ reward * weight % sum) }
{
    mul_div(reward, weight, sum).unwrap()
}

// Each client's part, rounded down, and its remainder are written. The units left are returned.
#[tactic(auto, using(crate::proofs::StepLaws::floors))]
fn write_floors(
    reward: u64,
    weights: &[u64],
    sum: u64,
    remainders: &mut [u64; MAX_WEIGHTS],
    parts: &mut [u64],
) -> u64
    requires { Checked sum weights.now parts.old }
    ensures { Floored reward weights.now parts.new remainders.new result }
{
    let mut left = reward;
    for (k, weight) in weights.iter().enumerate() {
        let share = share_of(reward, *weight, sum);
        parts[k] = share.quotient;
        remainders[k] = share.remainder;
        left -= share.quotient;
    }
    left
}

// One unit each to the largest remainders. Without a branch, since which of them are the largest can't be foreseen.
#[tactic(auto, using(crate::proofs::UnitLaws::units))]
fn give_units(remainders: &[u64; MAX_WEIGHTS], threshold: Threshold, parts: &mut [u64])
    requires few { length parts.old ≤ MAX_WEIGHTS }
    requires room { Room parts.old }
    ensures { Given threshold remainders.now parts.old parts.new }
{
    let mut units = threshold.units;
    for k in 0..parts.len() {
        let remainder = remainders[k];
        let tie = (remainder == threshold.remainder) & (0 < units);
        parts[k] += u64::from((threshold.remainder < remainder) | tie);
        units -= u64::from(tie);
    }
}

// Every client's part, where the checks are passed.
#[tactic(auto, using(crate::proofs::StepLaws::written))]
fn write_parts(reward: u64, weights: &[u64], sum: u64, parts: &mut [u64])
    requires { Checked sum weights.now parts.old }
    ensures { parts.new ≡ parts_of reward weights.now }
{
    let mut remainders = [0; MAX_WEIGHTS];
    let left = write_floors(reward, weights, sum, &mut remainders, parts);
    if 0 < left {
        let threshold = Threshold::of(remainders, weights.len(), left);
        give_units(&remainders, threshold, parts);
    }
}

// A reward is split among clients by weight. A refused call writes no word.
#[tactic(auto, unfolding(crate::specs::Split::split_call, crate::specs::Split::split_parts, types::specs::Base::acceptance, types::specs::Wide::fit_of))]
pub fn split(reward: u64, weights: &[u64], parts: &mut [u64]) -> Result<(), Refusal>
    ensures answer { outcome_of result ≡ acceptance (split_call reward weights.now (length parts.old)) }
    ensures parts_after { parts.new ≡ split_parts reward weights.now parts.old }
{
    if MAX_WEIGHTS < weights.len() || parts.len() != weights.len() {
        return Err(Refusal::InvalidWeights);
    }
    let sum = weight_sum(weights).ok_or(Refusal::DoesNotFit)?;
    if sum == 0 {
        return Err(Refusal::ZeroWeightSum);
    }
    write_parts(reward, weights, sum, parts);
    Ok(())
}
