// Item 7: the reward of one event.
ghost use Rattle.std.specs.Prelude.{◌≡◌};
ghost use Rattle.types.specs.Base.{outcome_by};
ghost use Rattle.event.specs.Event.{event_reward, shared, parts_as};

use crate::quotient;
use types::refusals::Refusal;
use types::{Amount, FRAC_64_MULTIPLIER, Ratio};

// What an event holds for one publisher.
#[derive(Clone, Copy, Debug, PartialEq, Eq)]
pub struct PublisherEventData {
    pub self_reward_ratio: Ratio,
    pub other_reward_ratio: Ratio,
    pub delegation_fee: Ratio,
}

// An event as one publisher's stakers see it: its y, and what it holds for the publisher.
#[derive(Clone, Copy, Debug, PartialEq, Eq)]
pub struct Event {
    pub y: Ratio,
    pub event_data: PublisherEventData,
}

// What an event pays the delegator, and the publisher's part.
#[derive(Clone, Copy, Debug, Default, PartialEq, Eq)]
pub struct Reward {
    pub delegator_reward: Amount,
    pub publisher_reward: Amount,
}

// A total shared out between the delegator and the publisher. `is_publisher`, here and below, is the Rust's own flag, kept by the
// project's rule that names and forms are the Rust's where it has them: the answer of `is_self_side` of image, whose own stake bears no fee.
#[tactic(auto, unfolding(crate::specs::Event::shared, types::specs::Wide::fit_of))]
fn share_out(total: u64, fee: u64, is_publisher: bool) -> Result<Reward, Refusal>
    ensures { outcome_by parts_as result ≡ shared total fee is_publisher }
{
    if is_publisher {
        return Ok(Reward {
            delegator_reward: Amount(total),
            publisher_reward: Amount(0),
        });
    }
    let part = quotient(total, fee, FRAC_64_MULTIPLIER).ok_or(Refusal::DoesNotFit)?;
    let rest = total.checked_sub(part).ok_or(Refusal::DoesNotFit)?;
    Ok(Reward {
        delegator_reward: Amount(rest),
        publisher_reward: Amount(part),
    })
}

impl Event {
    // What an amount earns in this event, on the publisher's own side or the other.
    #[tactic(auto, unfolding(crate::specs::Event::event_reward, crate::specs::Event::reward_of, crate::specs::Event::rate_of, crate::specs::Event::total_of, types::specs::Wide::fit_of))]
    pub fn calculate_reward(self, amount: Amount, is_publisher: bool) -> Result<Reward, Refusal>
        ensures { outcome_by parts_as result ≡ event_reward self amount.0 is_publisher }
    {
        if amount.0 == 0 {
            return Ok(Reward::default());
        }
        let held = self.event_data;
        let ratio = if is_publisher {
            held.self_reward_ratio
        } else {
            held.other_reward_ratio
        };
        let rate = quotient(self.y.0, ratio.0, FRAC_64_MULTIPLIER).ok_or(Refusal::DoesNotFit)?;
        let total = quotient(amount.0, rate, FRAC_64_MULTIPLIER).ok_or(Refusal::DoesNotFit)?;
        share_out(total, held.delegation_fee.0, is_publisher)
    }
}
