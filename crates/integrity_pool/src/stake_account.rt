// Item 9: a publisher's stake account, the Rust's set_publisher_stake_account.
ghost use Rattle.std.specs.Prelude.{◌≡◌};
ghost use Rattle.types.specs.Base.{outcome_of};
ghost use Rattle.image.specs.Changes.{changed_image};
ghost use Rattle.types.specs.Base.{acceptance};
ghost use Rattle.integrity_pool.specs.Changes.{account_holds, first_account, later_account, may_change, new_account, stake_account_call};

use image::pool_data::{PoolData, PoolDataMut};
use positions::Key;
use positions::list::has_target_with_parameters_exposure;
use types::refusals::Refusal;

// The keys that a change of a publisher's stake account is given; the accounts by the names of the Rust's SetPublisherStakeAccount.
#[derive(Clone, Copy, Debug, PartialEq, Eq)]
pub struct StakeAccounts {
    pub publisher: Key,
    pub signer: Key,
    pub reward_program_authority: Key,
    // The old account, and who owns it; the owner of an absent one is not looked at.
    pub current_stake_account_positions: Option<Key>,
    pub current_owner: Key,
    pub new_stake_account_positions: Option<Key>,
}

// Refusal 4 is due where this is false. The list of an absent account is not looked at.
#[tactic(auto, unfolding(crate::specs::Changes::account_holds))]
fn account_holds(account: Option<Key>, words: &[u64]) -> bool
    ensures { result ≡ account_holds account words.now }
{
    account.is_none() || positions::list::checked(words)
}

// The publisher's first stake account: 23 unless the publisher or the reward authority signs.
#[tactic(auto, using(positions::proofs::KeyLaws::same_eq, positions::proofs::KeyLaws::differ_eq), unfolding(crate::specs::Changes::first_account))]
fn first_account(accounts: &StakeAccounts) -> Result<(), Refusal>
    ensures { outcome_of result ≡ first_account accounts.now }
{
    let signer = accounts.signer;
    if signer != accounts.publisher && signer != accounts.reward_program_authority {
        return Err(Refusal::PublisherOrRewardAuthorityNeedsToSign);
    }
    Ok(())
}

// A later one: 26 without the old account; with it 17, 24, 25.
#[tactic(auto, using(positions::proofs::KeyLaws::same_eq, positions::proofs::KeyLaws::differ_eq), unfolding(crate::specs::Changes::later_account))]
fn later_account(found: Key, old: &[u64], accounts: &StakeAccounts) -> Result<(), Refusal>
    ensures { outcome_of result ≡ later_account found old.now accounts.now accounts.now.current_stake_account_positions }
{
    let key = accounts
        .current_stake_account_positions
        .ok_or(Refusal::AccountNotEnoughKeys)?;
    if key != found {
        return Err(Refusal::PublisherStakeAccountMismatch);
    }
    if has_target_with_parameters_exposure(old, accounts.publisher) {
        return Err(Refusal::CurrentStakeAccountShouldBeUndelegated);
    }
    if accounts.signer != accounts.current_owner {
        return Err(Refusal::StakeAccountOwnerNeedsToSign);
    }
    Ok(())
}

// Whether the stake account that is found may be changed.
#[tactic(auto, using(positions::proofs::KeyLaws::same_eq, positions::proofs::KeyLaws::differ_eq), unfolding(crate::specs::Changes::may_change))]
fn may_change(found: Key, old: &[u64], accounts: &StakeAccounts) -> Result<(), Refusal>
    ensures { outcome_of result ≡ may_change found old.now accounts.now }
{
    if found == Key::default() {
        first_account(accounts)
    } else {
        later_account(found, old, accounts)
    }
}

// The zero key where there is no new account.
#[tactic(auto, unfolding(crate::specs::Changes::new_account))]
fn new_account(new: &[u64], publisher: Key, account: Option<Key>) -> Result<Key, Refusal>
    ensures { outcome_of result ≡ new_account new.now publisher account }
{
    let Some(key) = account else {
        return Ok(Key::default());
    };
    if has_target_with_parameters_exposure(new, publisher) {
        return Err(Refusal::NewStakeAccountShouldBeUndelegated);
    }
    Ok(key)
}

// A publisher's stake account is set, changed or taken away.
#[tactic(auto, using(image::proofs::SeatLaws::index_lt), unfolding(crate::specs::Changes::stake_account_call, crate::specs::Changes::stake_account_at_seat, crate::proofs::CallLaws::changes))]
pub fn set_publisher_stake_account(
    pool: &mut [u64],
    p: usize,
    e: usize,
    old: &[u64],
    new: &[u64],
    accounts: &StakeAccounts,
) -> Result<(), Refusal>
    ensures answer { outcome_of result ≡ acceptance (stake_account_call p e pool.old old.now new.now accounts.now) }
    ensures image { pool.new ≡ changed_image p e pool.old (stake_account_call p e pool.old old.now new.now accounts.now) }
{
    let found = PoolData::check(&pool[..], p, e)?;
    let becomes = accounts.new_stake_account_positions;
    if !account_holds(accounts.current_stake_account_positions, old)
        || !account_holds(becomes, new)
    {
        return Err(Refusal::InvalidPositions);
    }
    let s = found.get_publisher_index(accounts.publisher)?;
    may_change(found.publisher_stake_account(s), old, accounts)?;
    let key = new_account(new, accounts.publisher, becomes)?;
    PoolDataMut::new(pool, p, e).set_publisher_stake_account(s, key);
    Ok(())
}
