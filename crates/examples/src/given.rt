// What the calls are given: images, keys, positions, messages.
ghost use Rattle.std.specs.Prelude.{◌+◌, ◌≤◌};

use advance_plan::Given;
use integrity_pool::payment::{Claim, DelegationRecord};
use integrity_pool::slash::Slashing;
use integrity_pool::stake_account::StakeAccounts;
use pool::changes::Delegation;
use positions::Key;
use types::{Amount, Epoch};

// P and E, and the words of such an image, which are those below.
pub const P: usize = 2;

pub const E: usize = 4;

pub type Image = [u64; 91];

// A side is its total and its change; the side and the account are the first seat's, the event the first slot's.
pub const OTHER_SIDE: usize = 10;

pub const SELF_SIDE: usize = 14;

pub const STAKE_ACCOUNT: usize = 18;

const EVENT: usize = 26;

const NUM_EVENTS: usize = 86;

// Who has the first seat, accounts, and who may sign.
pub const PUBLISHER: Key = Key(7, 0, 0, 0);

pub const ACCOUNT: Key = Key(1, 0, 0, 0);

pub const OLD: Key = Key(5, 0, 0, 0);

pub const NEW: Key = Key(6, 0, 0, 0);

const AUTHORITY: Key = Key(8, 0, 0, 0);

pub const OWNER: Key = Key(3, 0, 0, 0);

pub const THIRD: Key = Key(4, 0, 0, 0);

pub const ZERO: Key = Key(0, 0, 0, 0);

// Last epoch 9, claimable 7, and one publisher, who has no stake account.
pub fn seated() -> Image {
    let mut pool = [0; 91];
    pool[0] = 9;
    pool[1] = 7;
    pool[2] = PUBLISHER.0;
    pool
}

// The same, and the publisher has the old account.
pub fn with_account() -> Image {
    let mut pool = seated();
    pool[STAKE_ACCOUNT] = OLD.0;
    pool
}

// Both sides of the publisher have this total and change.
pub fn staked(total: u64, change: i64) -> Image {
    let mut pool = seated();
    for side in [OTHER_SIDE, SELF_SIDE] {
        pool[side] = total;
        pool[side + 1] = change.cast_unsigned();
    }
    pool
}

// Nothing is claimable, and epoch 8 has an event with y 10,000, ratio 500,000, fee 200,000.
pub fn earning() -> Image {
    let mut pool = seated();
    pool[1] = 0;
    pool[EVENT] = 8;
    pool[EVENT + 1] = 10_000;
    pool[EVENT + 10] = 500_000;
    pool[EVENT + 11] = 200_000;
    pool[NUM_EVENTS] = 1;
    pool
}

// An event whose y is 10,000 and whose self ratio is 1,000,000.
fn set_event(pool: &mut Image, at: usize, epoch: u64, ratio: u64, fee: u64)
    requires { at + 12 ≤ 91 }
{
    pool[at] = epoch;
    pool[at + 1] = 10_000;
    pool[at + 9] = 1_000_000;
    pool[at + 10] = ratio;
    pool[at + 11] = fee;
}

// 1,000,000 is claimable. Epochs 8, 7 and 6 have events, the newest in the first slot and the others around the ring; that of epoch 5 has no y.
pub fn paying() -> Image {
    let mut pool = seated();
    pool[1] = 1_000_000;
    pool[EVENT + 15] = 5;
    pool[NUM_EVENTS] = 5;
    set_event(&mut pool, EVENT, 8, 500_000, 200_000);
    set_event(&mut pool, EVENT + 45, 7, 250_000, 100_000);
    set_event(&mut pool, EVENT + 30, 6, 1_000_000, 200_000);
    pool
}

// One position in the publisher, without a start.
pub fn position(kind: u64, amount: u64) -> [u64; 9] {
    [kind, amount, 0, 0, 0, PUBLISHER.0, 0, 0, 0]
}

// A caps message of this time, without rows.
pub fn message(time: u64) -> [u8; 11] {
    let mut bytes = [0; 11];
    bytes[1..9].copy_from_slice(&time.to_be_bytes());
    bytes
}

// What an accepted advance or forecast is given.
pub const RIGHT: Given = Given {
    current_epoch: 12,
    y: 10_000,
    pool_reward_custody_balance: 7,
    epoch_duration: 604_800,
    is_verified: 1,
};

fn record_at(epoch: u64, next: u64) -> DelegationRecord {
    DelegationRecord::from([epoch, next])
}

// A payment from epoch 8 on.
pub fn claim(publisher: Key, account: Option<Key>, flag: u64, now: u64) -> Claim {
    Claim {
        delegation_record: record_at(8, 0),
        publisher,
        stake_account_positions: ACCOUNT,
        publisher_stake_account_positions: account,
        publisher_stake_account_custody: flag,
        current_epoch: now,
        unlocking_duration: 1,
    }
}

// A payment in epoch 9 to an account whose record is at this epoch, with an account for the publisher's part.
pub fn claim_since(epoch: u64, own: Key, account: Option<Key>) -> Claim {
    Claim {
        delegation_record: record_at(epoch, 3),
        stake_account_positions: own,
        ..claim(PUBLISHER, account, 1, 9)
    }
}

pub fn delegation(publisher: Key, account: Key, now: u64) -> Delegation {
    Delegation {
        publisher,
        stake_account_positions: account,
        current_epoch: now,
    }
}

// 4 locked and 2 preunlocking, by a record at this epoch and next index.
pub fn slashing(whose: Delegation, record: u64, next: u64, index: u64, event: u64) -> Slashing {
    Slashing {
        delegation_record: record_at(record, next),
        delegation: whose,
        index,
        slash_event_epoch: Epoch(event),
        locked_slashed: Amount(4),
        preunlocking_slashed: Amount(2),
    }
}

pub fn accounts(publisher: Key, signer: Key, old: Option<Key>, new: Option<Key>) -> StakeAccounts {
    StakeAccounts {
        publisher,
        signer,
        reward_program_authority: AUTHORITY,
        current_stake_account_positions: old,
        current_owner: OWNER,
        new_stake_account_positions: new,
    }
}
