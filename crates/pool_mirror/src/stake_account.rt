// A publisher's stake account.
ghost use Rattle.std.specs.Prelude.{◌≡◌};
ghost use Rattle.image.specs.Changes.{changed_image};
ghost use Rattle.integrity_pool.specs.Changes.{stake_account_call};
ghost use Rattle.pool_mirror.specs.Inputs.{accounts_of};
ghost use Rattle.pool_mirror.specs.Answers.{number_of};

use crate::inputs::key_or_none;
use crate::number;
use integrity_pool::stake_account::{StakeAccounts, set_publisher_stake_account};
use positions::Key;

// The keys that the call is given.
#[tactic(auto, unfolding(crate::specs::Inputs::accounts_of, crate::specs::Inputs::key_of))]
fn accounts(
    publisher: &[u64; 4],
    signer: &[u64; 4],
    authority: &[u64; 4],
    has_old: u64,
    old_account: &[u64; 4],
    old_owner: &[u64; 4],
    has_new: u64,
    new_account: &[u64; 4],
) -> StakeAccounts
    ensures { result ≡ accounts_of publisher.now signer.now authority.now has_old old_account.now old_owner.now has_new new_account.now }
{
    StakeAccounts {
        publisher: Key::from(*publisher),
        signer: Key::from(*signer),
        reward_program_authority: Key::from(*authority),
        current_stake_account_positions: key_or_none(has_old, old_account),
        current_owner: Key::from(*old_owner),
        new_stake_account_positions: key_or_none(has_new, new_account),
    }
}

// A publisher's stake account is set, changed or taken away.
#[tactic(auto, unfolding(types::specs::Base::acceptance))]
#[unsafe(no_mangle)]
pub extern "C" fn pool_mirror_stake_account(
    pool: &mut [u64],
    p: usize,
    e: usize,
    publisher: &[u64; 4],
    signer: &[u64; 4],
    authority: &[u64; 4],
    has_old: u64,
    old_account: &[u64; 4],
    old_owner: &[u64; 4],
    old_positions: &[u64],
    has_new: u64,
    new_account: &[u64; 4],
    new_positions: &[u64],
) -> u64
    ensures value { result ≡ number_of (stake_account_call p e pool.old old_positions.now new_positions.now (accounts_of publisher.now signer.now authority.now has_old old_account.now old_owner.now has_new new_account.now)) }
    ensures pool_after { pool.new ≡ changed_image p e pool.old (stake_account_call p e pool.old old_positions.now new_positions.now (accounts_of publisher.now signer.now authority.now has_old old_account.now old_owner.now has_new new_account.now)) }
{
    let keys = accounts(
        publisher,
        signer,
        authority,
        has_old,
        old_account,
        old_owner,
        has_new,
        new_account,
    );
    number(set_publisher_stake_account(pool, p, e, old_positions, new_positions, &keys))
}
