// Item 5: the y of an advance, lowered where custody does not cover the rewards, 0 where it is below claimable ([8]).
ghost use Rattle.std.specs.Prelude.{◌≡◌, ◌<◌};
ghost use Rattle.types.specs.Base.{outcome_by};
ghost use Rattle.event.specs.Adjust.{rewards_of, adjust_of, lowered_by, adjusted_as};

use crate::quotient;
use types::refusals::Refusal;
use types::{Amount, FRAC_64_MULTIPLIER, Ratio};

// The y that the events get, and the amount set aside.
#[derive(Clone, Copy, Debug, PartialEq, Eq)]
pub struct Adjusted {
    pub y: Ratio,
    pub set_aside: Amount,
}

// y and the amount set aside, where only `left` of the rewards r are covered.
#[tactic(auto, using(crate::proofs::AdjustLaws::lowered_aside_le), unfolding(crate::specs::Adjust::lowered_by, crate::specs::Adjust::rewards_of, types::specs::Wide::fit_of))]
fn lowered(t: u64, y: u64, left: u64, r: u64) -> Adjusted
    requires { (left < r) × (r ≡ rewards_of t y) }
    ensures { adjusted_as result ≡ lowered_by t y left r }
{
    let z = quotient(y, left, r).unwrap();
    let aside = quotient(t, z, FRAC_64_MULTIPLIER).unwrap();
    Adjusted {
        y: Ratio(z),
        set_aside: Amount(aside),
    }
}

#[tactic(auto, unfolding(crate::specs::Adjust::adjust_of, crate::specs::Adjust::rewards_of, types::specs::Wide::fit_of))]
pub fn adjust_rewards_if_needed(
    claimable_rewards: Amount,
    y: Ratio,
    total_eligible_delegation: Amount,
    pool_reward_custody_balance: Amount,
) -> Result<Adjusted, Refusal>
    ensures { outcome_by adjusted_as result ≡ adjust_of total_eligible_delegation.0 y.0 claimable_rewards.0 pool_reward_custody_balance.0 }
{
    let t = total_eligible_delegation.0;
    let claimable = claimable_rewards.0;
    let custody = pool_reward_custody_balance.0;
    let r = quotient(t, y.0, FRAC_64_MULTIPLIER).ok_or(Refusal::DoesNotFit)?;
    let due = r.checked_add(claimable).ok_or(Refusal::DoesNotFit)?;
    if due <= custody {
        return Ok(Adjusted {
            y,
            set_aside: Amount(r),
        });
    }
    if custody < claimable {
        return Ok(Adjusted {
            y: Ratio(0),
            set_aside: Amount(0),
        });
    }
    Ok(lowered(t, y.0, custody - claimable, r))
}
