// Item 9: add and remove stake, and every seat's fee.
ghost use Rattle.std.specs.Prelude.{◌≡◌};
ghost use Rattle.types.specs.Base.{outcome_of};
ghost use Rattle.image.specs.Changes.{changed_image};
ghost use Rattle.types.specs.Base.{acceptance};
ghost use Rattle.integrity_pool.specs.Changes.{add_call, remove_call, fee_call};

use image::pool_data::{PoolData, PoolDataMut};
use pool::changes::Delegation;
use positions::position::PositionState;
use types::refusals::Refusal;
use types::{Amount, FRAC_64_MULTIPLIER, Ratio};

// An account's stake with a publisher grows from the next epoch on.
#[tactic(auto, unfolding(crate::specs::Changes::add_call, crate::proofs::CallLaws::changes))]
pub fn add_delegation(
    pool: &mut [u64],
    p: usize,
    e: usize,
    delegation: &Delegation,
    amount: Amount,
) -> Result<(), Refusal>
    ensures answer { outcome_of result ≡ acceptance (add_call p e pool.old delegation.now amount.0) }
    ensures image { pool.new ≡ changed_image p e pool.old (add_call p e pool.old delegation.now amount.0) }
{
    PoolData::check(&pool[..], p, e)?;
    pool::changes::add_delegation(&mut PoolDataMut::new(pool, p, e), delegation, amount)
}

// It falls, by the state of the position that it is taken from.
#[tactic(auto, unfolding(crate::specs::Changes::remove_call, crate::proofs::CallLaws::changes))]
pub fn remove_delegation(
    pool: &mut [u64],
    p: usize,
    e: usize,
    delegation: &Delegation,
    amount: Amount,
    position_state: PositionState,
) -> Result<(), Refusal>
    ensures answer { outcome_of result ≡ acceptance (remove_call p e pool.old delegation.now amount.0 position_state) }
    ensures image { pool.new ≡ changed_image p e pool.old (remove_call p e pool.old delegation.now amount.0 position_state) }
{
    PoolData::check(&pool[..], p, e)?;
    pool::changes::remove_delegation(
        &mut PoolDataMut::new(pool, p, e),
        delegation,
        amount,
        position_state,
    )
}

// Every seat gets this fee; events already written keep theirs.
#[tactic(auto, unfolding(crate::specs::Changes::fee_call, crate::proofs::CallLaws::changes))]
pub fn update_delegation_fee(
    pool: &mut [u64],
    p: usize,
    e: usize,
    fee: Ratio,
) -> Result<(), Refusal>
    ensures answer { outcome_of result ≡ acceptance (fee_call p e pool.old fee.0) }
    ensures image { pool.new ≡ changed_image p e pool.old (fee_call p e pool.old fee.0) }
{
    PoolData::check(&pool[..], p, e)?;
    if FRAC_64_MULTIPLIER < fee.0 {
        return Err(Refusal::InvalidDelegationFee);
    }
    PoolDataMut::new(pool, p, e).set_delegation_fees(fee.0);
    Ok(())
}
