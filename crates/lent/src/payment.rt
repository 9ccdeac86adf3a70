// Item 8's payment over a lent list of position records, with the staker's record lent by `&mut`.
ghost use Rattle.std.specs.Prelude.{◌≡◌};
ghost use Rattle.types.specs.Base.{outcome_by};
ghost use Rattle.integrity_pool.specs.Payment.{payment_as, paid_image};
ghost use Rattle.lent.specs.Payment.{claim_of, lent_payment, payment_record};

use crate::records::checked;
use event_amounts::gather;
use image::pool_data::PoolData;
use integrity_pool::payment::{Claim, DelegationRecord, Payment, pay_gathered};
use positions::Key;
use positions::position::Position;
use types::refusals::Refusal;

// What a payment is given besides the pool, the positions and the record: a `Claim` without its record, which is lent by `&mut`. Its fields stand
// here again, and `Claim` holds no `LentClaim`: those are public fields that callers fill in by name.
#[derive(Clone, Copy, Debug, PartialEq, Eq)]
pub struct LentClaim {
    pub publisher: Key,
    // The stake account whose positions are paid.
    pub stake_account_positions: Key,
    pub publisher_stake_account_positions: Option<Key>,
    // Whether there is an account for the publisher's part: 0 where there is none. A word, of which any is taken, as in `Claim`.
    pub publisher_stake_account_custody: u64,
    pub current_epoch: u64,
    // UNLOCKING_DURATION, in epochs.
    pub unlocking_duration: u64,
}

impl LentClaim {
    // The claim with the record that was found.
    fn with_record(&self, found: DelegationRecord) -> Claim
        ensures { result ≡ claim_of found self.now }
    {
        Claim {
            delegation_record: found,
            publisher: self.publisher,
            stake_account_positions: self.stake_account_positions,
            publisher_stake_account_positions: self.publisher_stake_account_positions,
            publisher_stake_account_custody: self.publisher_stake_account_custody,
            current_epoch: self.current_epoch,
            unlocking_duration: self.unlocking_duration,
        }
    }
}

// The positions of an account are paid what they have earned with one publisher, and the lent record moves to the current epoch. A refused
// payment leaves it as it was. What it does as integrity_pool's call does is `gather` and `pay_gathered`; the checks of a list of records and of one of
// words differ.
#[tactic(auto, using(crate::proofs::RecordLaws::few, crate::proofs::PaymentLaws::gathered_records, integrity_pool::proofs::PaymentLaws::gathered_pays), unfolding(integrity_pool::specs::Payment::payment_call, integrity_pool::specs::Payment::gathered_call))]
pub fn advance_delegation_record(
    pool: &mut [u64],
    p: usize,
    e: usize,
    positions: &[Position],
    delegation_record: &mut DelegationRecord,
    given: &LentClaim,
) -> Result<Payment, Refusal>
    ensures answer { outcome_by payment_as result ≡ lent_payment p e pool.old positions.now delegation_record.old given.now }
    ensures record { delegation_record.new ≡ payment_record delegation_record.old (lent_payment p e pool.old positions.now delegation_record.old given.now) }
    ensures image { pool.new ≡ paid_image p e pool.old (lent_payment p e pool.old positions.now delegation_record.old given.now) }
{
    let found = PoolData::check(&pool[..], p, e)?;
    if !checked(positions) {
        return Err(Refusal::InvalidPositions);
    }
    let claim = given.with_record(*delegation_record);
    let from = claim.delegation_record.last_epoch.0;
    let unlocking = claim.unlocking_duration;
    let gathered = gather(found, positions, claim.publisher, from, unlocking);
    let payment = pay_gathered(pool, p, e, gathered, &claim)?;
    *delegation_record = payment.delegation_record;
    Ok(payment)
}
