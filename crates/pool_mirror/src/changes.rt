// Stake added and removed, and every seat's fee.
ghost use Rattle.std.specs.Prelude.{◌≡◌};
ghost use Rattle.image.specs.Changes.{changed_image};
ghost use Rattle.integrity_pool.specs.Changes.{add_call, remove_call, fee_call};
ghost use Rattle.pool_mirror.specs.Inputs.{delegation_of, state_of};
ghost use Rattle.pool_mirror.specs.Answers.{number_of};

use crate::inputs::position_state;
use crate::number;
use integrity_pool::changes::{add_delegation, remove_delegation, update_delegation_fee};
use pool::changes::Delegation;
use positions::Key;
use types::{Amount, Ratio};

// Whose stake with whom.
#[tactic(auto, unfolding(crate::specs::Inputs::delegation_of, crate::specs::Inputs::key_of))]
pub fn delegation(current_epoch: u64, publisher: &[u64; 4], account: &[u64; 4]) -> Delegation
    ensures { result ≡ delegation_of current_epoch publisher.now account.now }
{
    Delegation {
        publisher: Key::from(*publisher),
        stake_account_positions: Key::from(*account),
        current_epoch,
    }
}

// An account's stake with a publisher grows from the next epoch on.
#[tactic(auto, unfolding(types::specs::Base::acceptance))]
#[unsafe(no_mangle)]
pub extern "C" fn pool_mirror_add(
    pool: &mut [u64],
    p: usize,
    e: usize,
    current_epoch: u64,
    publisher: &[u64; 4],
    account: &[u64; 4],
    amount: u64,
) -> u64
    ensures value { result ≡ number_of (add_call p e pool.old (delegation_of current_epoch publisher.now account.now) amount) }
    ensures pool_after { pool.new ≡ changed_image p e pool.old (add_call p e pool.old (delegation_of current_epoch publisher.now account.now) amount) }
{
    let whose = delegation(current_epoch, publisher, account);
    number(add_delegation(pool, p, e, &whose, Amount(amount)))
}

// It falls, by the state of the position that it is taken from.
#[tactic(auto, unfolding(types::specs::Base::acceptance))]
#[unsafe(no_mangle)]
pub extern "C" fn pool_mirror_remove(
    pool: &mut [u64],
    p: usize,
    e: usize,
    current_epoch: u64,
    publisher: &[u64; 4],
    account: &[u64; 4],
    amount: u64,
    state: u64,
) -> u64
    ensures value { result ≡ number_of (remove_call p e pool.old (delegation_of current_epoch publisher.now account.now) amount (state_of state)) }
    ensures pool_after { pool.new ≡ changed_image p e pool.old (remove_call p e pool.old (delegation_of current_epoch publisher.now account.now) amount (state_of state)) }
{
    let whose = delegation(current_epoch, publisher, account);
    let state = position_state(state);
    number(remove_delegation(pool, p, e, &whose, Amount(amount), state))
}

// Every seat gets this fee.
#[tactic(auto, unfolding(types::specs::Base::acceptance))]
#[unsafe(no_mangle)]
pub extern "C" fn pool_mirror_fee(pool: &mut [u64], p: usize, e: usize, fee: u64) -> u64
    ensures value { result ≡ number_of (fee_call p e pool.old fee) }
    ensures pool_after { pool.new ≡ changed_image p e pool.old (fee_call p e pool.old fee) }
{
    number(update_delegation_fee(pool, p, e, Ratio(fee)))
}
