// A publisher's stake account.
ghost use Rattle.std.specs.Prelude.{◌≡◌};
ghost use Rattle.image.specs.Changes.{changed_image};
ghost use Rattle.integrity_pool.specs.Changes.{stake_account_call};
ghost use Rattle.pool_mirror.specs.Inputs.{accounts_of};
ghost use Rattle.pool_mirror.specs.Answers.{number_of};

// A publisher's stake account is set, changed or taken away.
#[unsafe(no_mangle)]
pub extern "C" fn pool_mirror_stake_account(
    pool: &mut [u64],
    p: usize,
    e: usize,
    publisher: &[u64; 4],
    signer: &[u64; 4],
    authority: &[u64; 4],
    has_old: u64,
    old_account: &[u64; 4],
    old_owner: &[u64; 4],
    old_positions: &[u64],
    has_new: u64,
    new_account: &[u64; 4],
    new_positions: &[u64],
) -> u64
    ensures value { result ≡ number_of (stake_account_call p e pool.old old_positions.now new_positions.now (accounts_of publisher.now signer.now authority.now has_old old_account.now old_owner.now has_new new_account.now)) }
    ensures pool_after { pool.new ≡ changed_image p e pool.old (stake_account_call p e pool.old old_positions.now new_positions.now (accounts_of publisher.now signer.now authority.now has_old old_account.now old_owner.now has_new new_account.now)) }
{
    pool_mirror::stake_account::pool_mirror_stake_account(
        pool,
        p,
        e,
        publisher,
        signer,
        authority,
        has_old,
        old_account,
        old_owner,
        old_positions,
        has_new,
        new_account,
        new_positions,
    )
}
