// Items 7 and 8: what the positions of an account have earned with one publisher, on an image and a list that have been checked.
ghost use Rattle.std.specs.Prelude.{◌≡◌, ◌<◌, get_or, Some};
ghost use Rattle.types.specs.Base.{outcome_by};
ghost use Rattle.event.specs.Event.{event_reward, parts_as};
ghost use Rattle.image.specs.Pool.{words_of};
ghost use Rattle.event_walk.specs.Walk.{walk_length};
ghost use Rattle.pool.specs.Reward.{event_of, slot_reward, reward_sum, reward_of, earned_as};

use event::event::{Event, PublisherEventData, Reward};
use event_walk::EventAmounts;
use event_walk::newest::{slot_before, walk_length};
use image::MAX_EVENTS;
use image::pool_data::PoolData;
use types::refusals::Refusal;
use types::{Amount, Ratio};

// What an account has earned, and how many events were read to find it.
#[derive(Clone, Copy, Debug, PartialEq, Eq)]
pub struct Rewards {
    pub delegator_reward: Amount,
    pub publisher_reward: Amount,
    pub reads: u64,
}

// The event in slot t as the stakers of the publisher at seat s see it.
fn get_event(pool: PoolData<'_>, t: usize, s: usize) -> Event
    requires { (t < pool.e) × (s < pool.p) }
    ensures { result ≡ event_of (words_of pool.entry) t s }
{
    let [self_ratio, other_ratio, fee] = pool.event_shares(t, s);
    Event {
        y: Ratio(pool.event_y(t)),
        event_data: PublisherEventData {
            self_reward_ratio: Ratio(self_ratio),
            other_reward_ratio: Ratio(other_ratio),
            delegation_fee: Ratio(fee),
        },
    }
}

// What an amount earns in slot t. The event of a slot without an amount is not read. `is_publisher` is a `bool`, here and below, by the project's rule
// that names and forms are the Rust's where it has them: the account is the publisher's, and earns on its own side.
#[tactic(auto, using(event::proofs::EventLaws::event_none))]
fn slot_reward(
    pool: PoolData<'_>,
    t: usize,
    s: usize,
    amount: u64,
    is_publisher: bool,
) -> Result<Reward, Refusal>
    requires { (t < pool.e) × (s < pool.p) }
    ensures { outcome_by parts_as result ≡ event_reward (event_of (words_of pool.entry) t s) amount is_publisher }
{
    if amount == 0 {
        return Ok(Reward::default());
    }
    get_event(pool, t, s).calculate_reward(Amount(amount), is_publisher)
}

// The rewards of the amounts in the ring slots, newest first, added up, on the publisher's own side or
// the other. Both sums together stay a word. There is no heap: the amounts stand in an array with the ring's room.
#[tactic(auto, using(event_walk::proofs::WalkLaws::before_lt, crate::proofs::RewardLaws::sum_paid))]
fn reward_sum(
    pool: PoolData<'_>,
    s: usize,
    amounts: &[u64; MAX_EVENTS],
    is_publisher: bool,
) -> Result<Reward, Refusal>
    requires { s < pool.p }
    ensures { outcome_by parts_as result ≡ reward_sum (walk_length pool.entry.e (words_of pool.entry)) (slot_reward pool.entry.e (words_of pool.entry) s is_publisher (λ k. get_or amounts.now k 0)) }
{
    let mut slot = (pool.num_events() % (pool.e as u64)) as usize;
    let mut delegators: u64 = 0;
    let mut publishers: u64 = 0;
    for amount in &amounts[..walk_length(pool)] {
        slot = slot_before(slot, pool.e);
        let reward = slot_reward(pool, slot, s, *amount, is_publisher)?;
        let delegator = reward.delegator_reward.0;
        let publisher = reward.publisher_reward.0;
        let sum = (delegators + publishers)
            .checked_add(delegator)
            .ok_or(Refusal::DoesNotFit)?;
        sum.checked_add(publisher).ok_or(Refusal::DoesNotFit)?;
        delegators += delegator;
        publishers += publisher;
    }
    Ok(Reward {
        delegator_reward: Amount(delegators),
        publisher_reward: Amount(publishers),
    })
}

// What the gathered amounts have earned with the publisher at seat s.
#[tactic(auto, unfolding(crate::specs::Reward::reward_of))]
pub fn calculate_reward(
    pool: PoolData<'_>,
    s: usize,
    gathered: &EventAmounts,
    is_publisher: bool,
) -> Result<Rewards, Refusal>
    requires { s < pool.p }
    ensures { outcome_by earned_as result ≡ reward_of pool.entry.e (words_of pool.entry) s (Some gathered.now) is_publisher }
{
    let sum = reward_sum(pool, s, &gathered.amounts, is_publisher)?;
    Ok(Rewards {
        delegator_reward: sum.delegator_reward,
        publisher_reward: sum.publisher_reward,
        reads: gathered.reads as u64,
    })
}
