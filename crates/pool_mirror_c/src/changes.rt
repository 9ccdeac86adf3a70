// Stake added and removed, and every seat's fee.
ghost use Rattle.std.specs.Prelude.{◌≡◌};
ghost use Rattle.image.specs.Changes.{changed_image};
ghost use Rattle.integrity_pool.specs.Changes.{add_call, remove_call, fee_call};
ghost use Rattle.pool_mirror.specs.Inputs.{delegation_of, state_of};
ghost use Rattle.pool_mirror.specs.Answers.{number_of};

// An account's stake with a publisher grows from the next epoch on.
#[unsafe(no_mangle)]
pub extern "C" fn pool_mirror_add(
    pool: &mut [u64],
    p: usize,
    e: usize,
    current_epoch: u64,
    publisher: &[u64; 4],
    account: &[u64; 4],
    amount: u64,
) -> u64
    ensures value { result ≡ number_of (add_call p e pool.old (delegation_of current_epoch publisher.now account.now) amount) }
    ensures pool_after { pool.new ≡ changed_image p e pool.old (add_call p e pool.old (delegation_of current_epoch publisher.now account.now) amount) }
{
    pool_mirror::changes::pool_mirror_add(pool, p, e, current_epoch, publisher, account, amount)
}

// It falls, by the state of the position that it is taken from.
#[unsafe(no_mangle)]
pub extern "C" fn pool_mirror_remove(
    pool: &mut [u64],
    p: usize,
    e: usize,
    current_epoch: u64,
    publisher: &[u64; 4],
    account: &[u64; 4],
    amount: u64,
    state: u64,
) -> u64
    ensures value { result ≡ number_of (remove_call p e pool.old (delegation_of current_epoch publisher.now account.now) amount (state_of state)) }
    ensures pool_after { pool.new ≡ changed_image p e pool.old (remove_call p e pool.old (delegation_of current_epoch publisher.now account.now) amount (state_of state)) }
{
    pool_mirror::changes::pool_mirror_remove(
        pool,
        p,
        e,
        current_epoch,
        publisher,
        account,
        amount,
        state,
    )
}

// Every seat gets this fee.
#[unsafe(no_mangle)]
pub extern "C" fn pool_mirror_fee(pool: &mut [u64], p: usize, e: usize, fee: u64) -> u64
    ensures value { result ≡ number_of (fee_call p e pool.old fee) }
    ensures pool_after { pool.new ≡ changed_image p e pool.old (fee_call p e pool.old fee) }
{
    pool_mirror::changes::pool_mirror_fee(pool, p, e, fee)
}
