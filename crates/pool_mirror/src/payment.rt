// A payment.
ghost use Rattle.std.specs.Prelude.{◌≡◌};
ghost use Rattle.integrity_pool.specs.Payment.{payment_call, payment_image};
ghost use Rattle.pool_mirror.specs.Inputs.{claim_of};
ghost use Rattle.pool_mirror.specs.Answers.{number_of, payment_answer, payment_record};

use crate::inputs::key_or_none;
use integrity_pool::payment::{Claim, DelegationRecord, advance_delegation_record};
use positions::Key;

// What a payment is given besides the pool and the positions.
#[tactic(auto, unfolding(crate::specs::Inputs::claim_of, crate::specs::Inputs::key_of))]
fn claim(
    current_epoch: u64,
    publisher: &[u64; 4],
    account: &[u64; 4],
    found: &[u64; 2],
    has_publisher_account: u64,
    publisher_account: &[u64; 4],
    custody_flag: u64,
    unlocking_duration: u64,
) -> Claim
    ensures { result ≡ claim_of current_epoch publisher.now account.now found.now has_publisher_account publisher_account.now custody_flag unlocking_duration }
{
    Claim {
        delegation_record: DelegationRecord::from(*found),
        publisher: Key::from(*publisher),
        stake_account_positions: Key::from(*account),
        publisher_stake_account_positions: key_or_none(has_publisher_account, publisher_account),
        publisher_stake_account_custody: custody_flag,
        current_epoch,
        unlocking_duration,
    }
}

// The positions of an account are paid what they have earned with one publisher. The answer: the delegator's part, the publisher's part, by
// how much custody falls, the read count.
#[unsafe(no_mangle)]
pub extern "C" fn pool_mirror_payment(
    pool: &mut [u64],
    p: usize,
    e: usize,
    current_epoch: u64,
    publisher: &[u64; 4],
    account: &[u64; 4],
    found: &mut [u64; 2],
    has_publisher_account: u64,
    publisher_account: &[u64; 4],
    custody_flag: u64,
    positions: &[u64],
    unlocking_duration: u64,
    answer: &mut [u64; 4],
) -> u64
    ensures value { result ≡ number_of (payment_call p e pool.old positions.now (claim_of current_epoch publisher.now account.now found.old has_publisher_account publisher_account.now custody_flag unlocking_duration)) }
    ensures pool_after { pool.new ≡ payment_image p e pool.old positions.now (claim_of current_epoch publisher.now account.now found.old has_publisher_account publisher_account.now custody_flag unlocking_duration) }
    ensures found_after { found.new ≡ payment_record found.old (payment_call p e pool.old positions.now (claim_of current_epoch publisher.now account.now found.old has_publisher_account publisher_account.now custody_flag unlocking_duration)) }
    ensures answer_after { answer.new ≡ payment_answer answer.old (payment_call p e pool.old positions.now (claim_of current_epoch publisher.now account.now found.old has_publisher_account publisher_account.now custody_flag unlocking_duration)) }
{
    let given = claim(
        current_epoch,
        publisher,
        account,
        found,
        has_publisher_account,
        publisher_account,
        custody_flag,
        unlocking_duration,
    );
    match advance_delegation_record(pool, p, e, positions, &given) {
        Err(refusal) => refusal.into(),
        Ok(payment) => {
            *found = payment.delegation_record.into();
            *answer = [
                payment.delegator_reward.0,
                payment.publisher_reward.0,
                payment.custody_fall.0,
                payment.reads,
            ];
            0
        }
    }
}
