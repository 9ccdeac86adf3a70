// A line's numbers and keys as the library takes them.
ghost use Rattle.std.specs.Prelude.{◌≡◌};
ghost use Rattle.mirror.specs.Args.{key_or_none, key_at, record_in, delegation_in, claim_in, slashing_in, accounts_in, given_in};

use advance_plan::Given;
use integrity_pool::payment::{Claim, DelegationRecord};
use integrity_pool::slash::Slashing;
use integrity_pool::stake_account::StakeAccounts;
use journal::fields::Fields;
use pool::changes::Delegation;
use positions::Key;
use types::{Amount, Epoch};

// The key of field k, or none.
pub fn key_or_none(fields: &Fields, k: usize) -> Option<Key>
    ensures { result ≡ key_or_none fields.now.values.items k }
{
    fields.key(k).map(Key::from)
}

// The key of field k, the zero key where it is none.
pub fn key(fields: &Fields, k: usize) -> Key
    ensures { result ≡ key_at fields.now.values.items k }
{
    key_or_none(fields, k).unwrap_or_default()
}

// RECORD_EPOCH NEXT_INDEX, which a payment and a slash have as fields 3 and 4.
fn delegation_record(fields: &Fields) -> DelegationRecord
    ensures { result ≡ record_in fields.now.values.items }
{
    DelegationRecord {
        last_epoch: Epoch(fields.number(3)),
        next_slash_event_index: fields.number(4),
    }
}

// NOW PUBLISHER ACCOUNT, which a payment, an add, a remove and a slash begin with.
pub fn delegation(fields: &Fields) -> Delegation
    ensures { result ≡ delegation_in fields.now.values.items }
{
    Delegation {
        publisher: key(fields, 1),
        stake_account_positions: key(fields, 2),
        current_epoch: fields.number(0),
    }
}

// NOW Y CUSTODY VERIFIED, and the length of an epoch.
pub fn given(fields: &Fields, epoch_duration: u64) -> Given
    ensures { result ≡ given_in fields.now.values.items epoch_duration }
{
    Given {
        current_epoch: fields.number(0),
        y: fields.number(1),
        pool_reward_custody_balance: fields.number(2),
        epoch_duration,
        is_verified: fields.number(3),
    }
}

// NOW PUBLISHER ACCOUNT RECORD_EPOCH NEXT_INDEX PUBLISHER_ACCOUNT CUSTODY_FLAG, and the length of unlocking.
pub fn claim(fields: &Fields, unlocking_duration: u64) -> Claim
    ensures { result ≡ claim_in fields.now.values.items unlocking_duration }
{
    let Delegation {
        publisher,
        stake_account_positions,
        current_epoch,
    } = delegation(fields);
    Claim {
        delegation_record: delegation_record(fields),
        publisher,
        stake_account_positions,
        publisher_stake_account_positions: key_or_none(fields, 5),
        publisher_stake_account_custody: fields.number(6),
        current_epoch,
        unlocking_duration,
    }
}

// NOW PUBLISHER ACCOUNT RECORD_EPOCH NEXT_INDEX INDEX EVENT_EPOCH LOCKED PREUNLOCKING
pub fn slashing(fields: &Fields) -> Slashing
    ensures { result ≡ slashing_in fields.now.values.items }
{
    Slashing {
        delegation_record: delegation_record(fields),
        delegation: delegation(fields),
        index: fields.number(5),
        slash_event_epoch: Epoch(fields.number(6)),
        locked_slashed: Amount(fields.number(7)),
        preunlocking_slashed: Amount(fields.number(8)),
    }
}

// PUBLISHER SIGNER AUTHORITY OLD OLD_OWNER OLD_POSITIONS NEW NEW_POSITIONS
pub fn accounts(fields: &Fields) -> StakeAccounts
    ensures { result ≡ accounts_in fields.now.values.items }
{
    StakeAccounts {
        publisher: key(fields, 0),
        signer: key(fields, 1),
        reward_program_authority: key(fields, 2),
        current_stake_account_positions: key_or_none(fields, 3),
        current_owner: key(fields, 4),
        new_stake_account_positions: key_or_none(fields, 6),
    }
}
