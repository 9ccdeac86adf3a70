// Item 9: slash events and slashes.
ghost use Rattle.std.specs.Prelude.{◌≡◌, ◌+◌};
ghost use Rattle.types.specs.Base.{outcome_of, outcome_by, map_outcome};
ghost use Rattle.image.specs.Pool.{words_in};
ghost use Rattle.image.specs.Changes.{changed_image};
ghost use Rattle.pool.specs.Changes.{ChangesAs};
ghost use Rattle.integrity_pool.specs.Changes.{create_slash_event_call, created_in, epoch_as, wrong_order, slash_order, slash_change, slash_call, slashed_with};

use crate::payment::DelegationRecord;
use image::pool_data::{PoolData, PoolDataMut};
use pool::changes::{Delegation, apply_slash};
use positions::Key;
use types::refusals::Refusal;
use types::{Amount, Epoch};

// What a slash is given besides the pool.
#[derive(Clone, Copy, Debug, PartialEq, Eq)]
pub struct Slashing {
    pub delegation_record: DelegationRecord,
    pub delegation: Delegation,
    // The slash event's number with this publisher, and its epoch.
    pub index: u64,
    pub slash_event_epoch: Epoch,
    // What the slash took from the account's positions, by their states.
    pub locked_slashed: Amount,
    pub preunlocking_slashed: Amount,
}

// The publisher's next slash event, in the current epoch, which is the answer.
#[tactic(auto, using(image::proofs::SeatLaws::index_lt), unfolding(crate::specs::Changes::create_slash_event_call, crate::specs::Changes::create_at, crate::specs::Changes::created_in, crate::proofs::CallLaws::changes))]
pub fn create_slash_event(
    pool: &mut [u64],
    p: usize,
    e: usize,
    publisher: Key,
    index: u64,
    current_epoch: Epoch,
) -> Result<Epoch, Refusal>
    ensures answer { outcome_by epoch_as result ≡ created_in current_epoch.0 (create_slash_event_call p e pool.old publisher index) }
    ensures image { pool.new ≡ changed_image p e pool.old (create_slash_event_call p e pool.old publisher index) }
{
    let found = PoolData::check(&pool[..], p, e)?;
    let s = found.get_publisher_index(publisher)?;
    if found.num_slash_events(s) != index {
        return Err(Refusal::InvalidSlashEventIndex);
    }
    let count = index.checked_add(1).ok_or(Refusal::DoesNotFit)?;
    PoolDataMut::new(pool, p, e).set_num_slash_events(s, count);
    Ok(current_epoch)
}

// 20 is an index below the next one or, in the current epoch, unequal to it.
#[tactic(auto, unfolding(crate::specs::Changes::wrong_order))]
fn wrong_order(index: u64, next: u64, event: u64, current: u64) -> bool
    ensures { result ≡ wrong_order index next event current }
{
    index < next || event == current && index != next
}

// Refusal 19, 22, 20, or 13 for the next index, or that index.
#[tactic(auto, unfolding(crate::specs::Changes::slash_order))]
fn slash_order(slashing: &Slashing) -> Result<u64, Refusal>
    ensures { outcome_of result ≡ map_outcome (λ passed. slashing.now.index + 1) (slash_order slashing.now) }
{
    let index = slashing.index;
    let event = slashing.slash_event_epoch.0;
    let current = slashing.delegation.current_epoch;
    let next = slashing.delegation_record.next_slash_event_index;
    if slashing.delegation_record.last_epoch.0 != current {
        return Err(Refusal::OutdatedDelegatorAccounting);
    }
    if current < event {
        return Err(Refusal::SlashEventAheadOfNow);
    }
    if wrong_order(index, next, event, current) {
        return Err(Refusal::WrongSlashEventOrder);
    }
    index.checked_add(1).ok_or(Refusal::DoesNotFit)
}

// A slash in its turn changes the pool where it is of the current epoch: one older changes the record alone.
#[tactic(auto, using(image::proofs::HoldsLaws::holds_is), unfolding(crate::specs::Changes::slash_change, types::specs::Base::acceptance, image::specs::Changes::changed_image))]
fn slash_in_turn(pool: &mut PoolDataMut<'_>, slashing: &Slashing) -> Result<(), Refusal>
    ensures { ChangesAs pool.old pool.new (slash_change pool.old.p (words_in pool.old) slashing.now) result }
{
    if slashing.slash_event_epoch.0 < slashing.delegation.current_epoch {
        return Ok(());
    }
    let locked = slashing.locked_slashed;
    let preunlocking = slashing.preunlocking_slashed;
    apply_slash(pool, &slashing.delegation, locked, preunlocking)
}

// What a slash event took from an account leaves the publisher's totals, and the record moves past the event: the answer is the record to keep.
#[tactic(auto, unfolding(crate::specs::Changes::slash_call, crate::specs::Changes::slashed_with, crate::proofs::CallLaws::changes))]
pub fn slash(
    pool: &mut [u64],
    p: usize,
    e: usize,
    slashing: &Slashing,
) -> Result<DelegationRecord, Refusal>
    ensures answer { outcome_of result ≡ slashed_with slashing.now (slash_call p e pool.old slashing.now) }
    ensures image { pool.new ≡ changed_image p e pool.old (slash_call p e pool.old slashing.now) }
{
    PoolData::check(&pool[..], p, e)?;
    let next_slash_event_index = slash_order(slashing)?;
    slash_in_turn(&mut PoolDataMut::new(pool, p, e), slashing)?;
    Ok(DelegationRecord {
        next_slash_event_index,
        ..slashing.delegation_record
    })
}
