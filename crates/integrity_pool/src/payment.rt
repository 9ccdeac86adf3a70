// Item 8: a payment, the Rust's advance_delegation_record around calculate_reward.
ghost use Rattle.std.specs.Prelude.{◌≡◌, ◌+◌, ◌<◌};
ghost use Rattle.types.specs.Base.{word, outcome_of, outcome_by};
ghost use Rattle.image.specs.Pool.{words_of};
ghost use Rattle.pool.specs.Reward.{earned_as};
ghost use Rattle.integrity_pool.specs.Payment.{record_at, record_of, record_words, custody_fall, pay_out, gathered_payment, gathered_call, paid_image, payment_as, payment_call, payment_image};

use event_amounts::gather;
use event_walk::EventAmounts;
use image::pool_data::{PoolData, PoolDataMut};
use pool::changes::up_to_date;
use pool::reward::{Rewards, calculate_reward};
use positions::Key;
use positions::list::{checked, nines};
use types::refusals::Refusal;
use types::{Amount, Epoch};

// A staker's record with one publisher.
#[derive(Clone, Copy, Debug, PartialEq, Eq)]
pub struct DelegationRecord {
    pub last_epoch: Epoch,
    pub next_slash_event_index: u64,
}

impl From<[u64; 2]> for DelegationRecord {
    ghost from_gives = { λ words kept. kept ≡ record_of words };

    fn from(words: [u64; 2]) -> DelegationRecord {
        DelegationRecord {
            last_epoch: Epoch(words[0]),
            next_slash_event_index: words[1],
        }
    }
}

impl From<DelegationRecord> for [u64; 2] {
    ghost from_gives = { λ kept words. words ≡ record_words kept };

    fn from(record: DelegationRecord) -> [u64; 2] {
        [record.last_epoch.0, record.next_slash_event_index]
    }
}

impl DelegationRecord {
    // The record in the current epoch. Its next slash index stays.
    pub fn advance(self, current_epoch: Epoch) -> DelegationRecord
        ensures { result ≡ record_at self current_epoch.0 }
    {
        DelegationRecord {
            last_epoch: current_epoch,
            ..self
        }
    }
}

// What a payment is given besides the pool and the positions; the accounts by the names of the Rust's AdvanceDelegationRecord. They stand one by
// one, and not in a `Delegation` as in `Slashing`: those are fields that callers fill in.
#[derive(Clone, Copy, Debug, PartialEq, Eq)]
pub struct Claim {
    pub delegation_record: DelegationRecord,
    pub publisher: Key,
    // The stake account whose positions are paid.
    pub stake_account_positions: Key,
    pub publisher_stake_account_positions: Option<Key>,
    // Whether there is an account for the publisher's part: 0 where there is none. A word of the call's input, of which any is taken, and no bool.
    pub publisher_stake_account_custody: u64,
    pub current_epoch: u64,
    // UNLOCKING_DURATION, in epochs.
    pub unlocking_duration: u64,
}

// The two parts, by how much custody falls, the record to keep, and how many events were read.
#[derive(Clone, Copy, Debug, PartialEq, Eq)]
pub struct Payment {
    pub delegator_reward: Amount,
    pub publisher_reward: Amount,
    pub custody_fall: Amount,
    pub delegation_record: DelegationRecord,
    pub reads: u64,
}

// What the publisher account decides, none counting as zero: with a key custody falls by both parts, with none by the delegator's alone.
#[tactic(auto, using(positions::proofs::KeyLaws::same_eq, positions::proofs::KeyLaws::differ_eq), unfolding(crate::specs::Payment::custody_fall))]
fn custody_fall(
    stake_account: Key,
    account: Option<Key>,
    custody: u64,
    delegator: u64,
    both: u64,
) -> Result<u64, Refusal>
    ensures { outcome_of result ≡ custody_fall stake_account account custody delegator both }
{
    if stake_account != account.unwrap_or_default() {
        return Err(Refusal::PublisherStakeAccountMismatch);
    }
    match account {
        None => Ok(delegator),
        Some(_) if custody == 0 => Err(Refusal::PublisherCustodyAccountRequired),
        Some(_) => Ok(both),
    }
}

// What is paid of what has been earned.
#[tactic(auto, unfolding(crate::specs::Payment::pay_out))]
fn pay(
    claimable: u64,
    stake_account: Key,
    claim: &Claim,
    earned: Rewards,
) -> Result<Payment, Refusal>
    requires { earned.delegator_reward.0 + earned.publisher_reward.0 < word }
    ensures { outcome_by payment_as result ≡ pay_out claimable stake_account claim.now (earned_as earned) }
{
    let delegator = earned.delegator_reward.0;
    let both = delegator + earned.publisher_reward.0;
    if claimable < both {
        return Err(Refusal::PaymentAboveClaimable);
    }
    let account = claim.publisher_stake_account_positions;
    let custody = claim.publisher_stake_account_custody;
    let fall = custody_fall(stake_account, account, custody, delegator, both)?;
    Ok(Payment {
        delegator_reward: earned.delegator_reward,
        publisher_reward: earned.publisher_reward,
        custody_fall: Amount(fall),
        delegation_record: claim.delegation_record.advance(Epoch(claim.current_epoch)),
        reads: earned.reads,
    })
}

// A payment on a checked image, nothing written.
#[tactic(auto, using(image::proofs::SeatLaws::index_lt), unfolding(crate::specs::Payment::gathered_payment, crate::specs::Payment::gathered_payment_at, pool::specs::Reward::reward_of, pool::specs::Changes::up_to_date))]
fn payment_of(
    pool: PoolData<'_>,
    gathered: Option<EventAmounts>,
    claim: &Claim,
) -> Result<Payment, Refusal>
    ensures { outcome_by payment_as result ≡ gathered_payment pool.entry.p pool.entry.e (words_of pool.entry) gathered claim.now }
{
    let s = pool.get_publisher_index(claim.publisher)?;
    up_to_date(pool, claim.current_epoch)?;
    // Not by `ok_or` and `?`: tried, a payment whose 256 positions do not match takes 1.20 of its time, where no call may take more than 1.05.
    let Some(gathered) = gathered else {
        return Err(Refusal::DoesNotFit);
    };
    let is_publisher = pool.is_self_side(s, claim.stake_account_positions);
    let earned = calculate_reward(pool, s, &gathered, is_publisher)?;
    let stake_account = pool.publisher_stake_account(s);
    pay(pool.claimable_rewards(), stake_account, claim, earned)
}

// The amounts that an account's positions have gathered are paid what they have earned: what is paid leaves claimable. It is the same whether
// the positions came as words or as records. None of the ten calls: `lent` makes its payment with it. It checks the image itself: what the callers have
// checked is a `PoolData`, by which nothing is written, and a parameter that says so of words to be written would ask more of them.
#[tactic(auto, using(crate::proofs::PaymentLaws::gathered_covered, crate::proofs::PaymentLaws::paid_image_law), unfolding(crate::specs::Payment::gathered_call))]
pub fn pay_gathered(
    pool: &mut [u64],
    p: usize,
    e: usize,
    gathered: Option<EventAmounts>,
    claim: &Claim,
) -> Result<Payment, Refusal>
    ensures answer { outcome_by payment_as result ≡ gathered_call p e pool.old gathered claim.now }
    ensures image { pool.new ≡ paid_image p e pool.old (gathered_call p e pool.old gathered claim.now) }
{
    let found = PoolData::check(&pool[..], p, e)?;
    let payment = payment_of(found, gathered, claim)?;
    let claimable = found.claimable_rewards();
    let paid = payment.delegator_reward.0 + payment.publisher_reward.0;
    PoolDataMut::new(pool, p, e).set_claimable_rewards(claimable - paid);
    Ok(payment)
}

// The positions of an account are paid what they have earned with one publisher, and the record moves to the current epoch.
#[tactic(auto, using(event_amounts::proofs::NinesLaws::gathered_nines, crate::proofs::PaymentLaws::gathered_pays), unfolding(crate::specs::Payment::payment_call, crate::specs::Payment::payment_image, crate::specs::Payment::gathered_call))]
pub fn advance_delegation_record(
    pool: &mut [u64],
    p: usize,
    e: usize,
    words: &[u64],
    claim: &Claim,
) -> Result<Payment, Refusal>
    ensures answer { outcome_by payment_as result ≡ payment_call p e pool.old words.now claim.now }
    ensures image { pool.new ≡ payment_image p e pool.old words.now claim.now }
{
    let found = PoolData::check(&pool[..], p, e)?;
    if !checked(words) {
        return Err(Refusal::InvalidPositions);
    }
    let from = claim.delegation_record.last_epoch.0;
    let unlocking = claim.unlocking_duration;
    let gathered = gather(found, nines(words), claim.publisher, from, unlocking);
    pay_gathered(pool, p, e, gathered, claim)
}
