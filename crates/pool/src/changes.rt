// Item 9: add, remove and a slash that applies, on a checked image.
ghost use Rattle.std.specs.Prelude.{◌≡◌, ◌<◌};
ghost use Rattle.types.specs.Base.{outcome_of};
ghost use Rattle.image.specs.Pool.{words_of, words_in};
ghost use Rattle.pool.specs.Changes.{ChangesAs, SideChanges, dated, delegation_seat, slash_seat, add_delegation, remove_delegation, apply_slash};

use delegation::DelegationState;
use image::pool_data::{PoolData, PoolDataMut};
use positions::Key;
use positions::position::PositionState;
use types::Amount;
use types::refusals::Refusal;

// Whose stake with which publisher changes, and when.
#[derive(Clone, Copy, Debug, PartialEq, Eq)]
pub struct Delegation {
    pub publisher: Key,
    // The account whose stake changes.
    pub stake_account_positions: Key,
    pub current_epoch: u64,
}

// 12 where the pool has not been advanced to the epoch.
#[tactic(auto, unfolding(crate::specs::Changes::up_to_date))]
pub fn up_to_date(pool: PoolData<'_>, current_epoch: u64) -> Result<(), Refusal>
    ensures { outcome_of result ≡ dated (words_of pool.entry) current_epoch }
{
    if pool.last_updated_epoch() != current_epoch {
        return Err(Refusal::OutdatedPublisherAccounting);
    }
    Ok(())
}

// The seat for an add or a remove: 10, 11, then 12.
#[tactic(auto, unfolding(crate::specs::Changes::up_to_date, crate::specs::Changes::delegation_seat))]
fn delegation_seat(pool: PoolData<'_>, delegation: &Delegation) -> Result<usize, Refusal>
    ensures { outcome_of result ≡ delegation_seat pool.entry.p (words_of pool.entry) delegation.now }
{
    let s = pool.get_publisher_index(delegation.publisher)?;
    up_to_date(pool, delegation.current_epoch)?;
    Ok(s)
}

// The seat for a slash: 12, then 10, 11.
#[tactic(auto, unfolding(crate::specs::Changes::up_to_date, crate::specs::Changes::slash_seat))]
fn slash_seat(pool: PoolData<'_>, delegation: &Delegation) -> Result<usize, Refusal>
    ensures { outcome_of result ≡ slash_seat pool.entry.p (words_of pool.entry) delegation.now }
{
    up_to_date(pool, delegation.current_epoch)?;
    pool.get_publisher_index(delegation.publisher)
}

// The account's side at seat s becomes what the change makes of it.
#[tactic(auto, unfolding(image::specs::Changes::changed_image, types::specs::Base::acceptance))]
fn change_side<F: FnOnce(DelegationState) -> Result<DelegationState, Refusal>>(
    pool: &mut PoolDataMut<'_>,
    s: usize,
    account: Key,
    change: F,
) -> Result<(), Refusal>
    requires seat { s < pool.old.p }
    requires callable { F.IsAlwaysCallable change }
    ensures { SideChanges (F.post change) pool.old pool.new s account result }
{
    let found = pool.read();
    let side = found.account_side(s, account);
    let becomes = change(found.side(s, side))?;
    pool.set_side(s, side, becomes);
    Ok(())
}

// The amount joins the change of the account's side.
#[tactic(auto, using(crate::proofs::ChangeLaws::seat_lt), unfolding(crate::specs::Changes::add_delegation, crate::specs::Changes::side_change, crate::specs::Changes::account_side, image::specs::Changes::changed_image, types::specs::Base::acceptance))]
pub fn add_delegation(
    pool: &mut PoolDataMut<'_>,
    delegation: &Delegation,
    amount: Amount,
) -> Result<(), Refusal>
    ensures { ChangesAs pool.old pool.new (add_delegation pool.old.p (words_in pool.old) delegation.now amount.0) result }
{
    let s = delegation_seat(pool.read(), delegation)?;
    let account = delegation.stake_account_positions;
    change_side(pool, s, account, |side| side.add(amount))
}

// The amount leaves it, by the position's state.
#[tactic(auto, using(crate::proofs::ChangeLaws::seat_lt), unfolding(crate::specs::Changes::remove_delegation, crate::specs::Changes::side_change, crate::specs::Changes::account_side, image::specs::Changes::changed_image, types::specs::Base::acceptance))]
pub fn remove_delegation(
    pool: &mut PoolDataMut<'_>,
    delegation: &Delegation,
    amount: Amount,
    position_state: PositionState,
) -> Result<(), Refusal>
    ensures { ChangesAs pool.old pool.new (remove_delegation pool.old.p (words_in pool.old) delegation.now amount.0 position_state) result }
{
    let s = delegation_seat(pool.read(), delegation)?;
    let account = delegation.stake_account_positions;
    change_side(pool, s, account, |side| side.remove(amount, position_state))
}

// What was slashed leaves the total of the account's side, and preunlocking joins its change.
#[tactic(auto, using(crate::proofs::ChangeLaws::slash_seat_lt), unfolding(crate::specs::Changes::apply_slash, crate::specs::Changes::side_change, crate::specs::Changes::account_side, image::specs::Changes::changed_image, types::specs::Base::acceptance))]
pub fn apply_slash(
    pool: &mut PoolDataMut<'_>,
    delegation: &Delegation,
    locked_slashed: Amount,
    preunlocking_slashed: Amount,
) -> Result<(), Refusal>
    ensures { ChangesAs pool.old pool.new (apply_slash pool.old.p (words_in pool.old) delegation.now locked_slashed.0 preunlocking_slashed.0) result }
{
    let s = slash_seat(pool.read(), delegation)?;
    let account = delegation.stake_account_positions;
    change_side(
        pool,
        s,
        account,
        |side| side.slash(locked_slashed, preunlocking_slashed),
    )
}
