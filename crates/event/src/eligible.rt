// Item 3: what a publisher's cap covers of each side's total.
ghost use Rattle.std.specs.Prelude.{◌≡◌, ◌≤◌};
ghost use Rattle.event.specs.Eligible.{ratio_of, eligible_of};

use crate::quotient;
use types::{Amount, FRAC_64_MULTIPLIER, Ratio};

#[derive(Clone, Copy, Debug, PartialEq, Eq)]
pub struct RewardRatios {
    pub self_reward_ratio: Ratio,
    pub other_reward_ratio: Ratio,
}

// Each side's eligible amount, and its ratio to the side's total.
#[derive(Clone, Copy, Debug, PartialEq, Eq)]
pub struct EligibleDelegationData {
    pub self_eligible_delegation: Amount,
    pub other_eligible_delegation: Amount,
    pub reward_ratios: RewardRatios,
}

// The ratio of an eligible part to its total. A part that is none or all of it needs no division, and one of less than 2^44 no product of two words.
#[tactic(auto, unfolding(crate::specs::Eligible::ratio_of, types::specs::Wide::fit_of))]
fn reward_ratio(part: u64, total: u64) -> u64
    requires { part ≤ total }
    ensures { result ≡ ratio_of part total }
{
    if part == 0 {
        return 0;
    }
    if part == total {
        return FRAC_64_MULTIPLIER;
    }
    if part < 0x1000_0000_0000 {
        return FRAC_64_MULTIPLIER * part / total;
    }
    quotient(FRAC_64_MULTIPLIER, part, total).unwrap()
}

impl EligibleDelegationData {
    #[tactic(auto, unfolding(crate::specs::Eligible::self_eligible, crate::specs::Eligible::other_eligible, crate::specs::Eligible::eligible_of))]
    pub fn from_delegation_data(
        self_delegation: Amount,
        other_delegation: Amount,
        publisher_cap: Amount,
    ) -> EligibleDelegationData
        ensures { result ≡ eligible_of publisher_cap.0 self_delegation.0 other_delegation.0 }
    {
        let cap = publisher_cap.0;
        let self_eligible = cap.min(self_delegation.0);
        let other_eligible = (cap - self_eligible).min(other_delegation.0);
        let self_ratio = reward_ratio(self_eligible, self_delegation.0);
        let other_ratio = reward_ratio(other_eligible, other_delegation.0);
        EligibleDelegationData {
            self_eligible_delegation: Amount(self_eligible),
            other_eligible_delegation: Amount(other_eligible),
            reward_ratios: RewardRatios {
                self_reward_ratio: Ratio(self_ratio),
                other_reward_ratio: Ratio(other_ratio),
            },
        }
    }
}
