// Item 9's slash with the staker's record lent by `&mut`.
ghost use Rattle.std.specs.Prelude.{◌≡◌};
ghost use Rattle.types.specs.Base.{outcome_of};
ghost use Rattle.image.specs.Changes.{changed_image};
ghost use Rattle.lent.specs.Slash.{slashing_of, lent_slash, lent_slash_call, slash_record};

use integrity_pool::payment::DelegationRecord;
use integrity_pool::slash::Slashing;
use pool::changes::Delegation;
use types::refusals::Refusal;
use types::{Amount, Epoch};

// What a slash is given besides the pool and the record: a `Slashing` without its record, which is lent by `&mut`. Its fields stand here again, as
// in a `LentClaim`: callers fill in those of `Slashing` by name.
#[derive(Clone, Copy, Debug, PartialEq, Eq)]
pub struct LentSlashing {
    pub delegation: Delegation,
    // The slash event's number with this publisher, and its epoch.
    pub index: u64,
    pub slash_event_epoch: Epoch,
    // What the slash took from the account's positions, by their states.
    pub locked_slashed: Amount,
    pub preunlocking_slashed: Amount,
}

impl LentSlashing {
    // The slashing with the record that was found.
    fn with_record(&self, found: DelegationRecord) -> Slashing
        ensures { result ≡ slashing_of found self.now }
    {
        Slashing {
            delegation_record: found,
            delegation: self.delegation,
            index: self.index,
            slash_event_epoch: self.slash_event_epoch,
            locked_slashed: self.locked_slashed,
            preunlocking_slashed: self.preunlocking_slashed,
        }
    }
}

// What a slash event took from an account leaves the publisher's totals, and the lent record moves past the event: it becomes the answer. A
// refused slash leaves it as it was.
pub fn slash(
    pool: &mut [u64],
    p: usize,
    e: usize,
    delegation_record: &mut DelegationRecord,
    given: &LentSlashing,
) -> Result<DelegationRecord, Refusal>
    ensures answer { outcome_of result ≡ lent_slash p e pool.old delegation_record.old given.now }
    ensures record { delegation_record.new ≡ slash_record delegation_record.old (lent_slash p e pool.old delegation_record.old given.now) }
    ensures image { pool.new ≡ changed_image p e pool.old (lent_slash_call p e pool.old delegation_record.old given.now) }
{
    let slashing = given.with_record(*delegation_record);
    let kept = integrity_pool::slash::slash(pool, p, e, &slashing)?;
    *delegation_record = kept;
    Ok(kept)
}
