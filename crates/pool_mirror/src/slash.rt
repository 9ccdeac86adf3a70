// Slash events and slashes.
ghost use Rattle.std.specs.Prelude.{◌≡◌};
ghost use Rattle.image.specs.Changes.{changed_image};
ghost use Rattle.integrity_pool.specs.Changes.{create_slash_event_call, created_in, slash_call, slashed_with};
ghost use Rattle.pool_mirror.specs.Inputs.{key_of, slashing_of};
ghost use Rattle.pool_mirror.specs.Answers.{number_of, one_answer, slash_record};

use crate::changes::delegation;
use integrity_pool::payment::DelegationRecord;
use integrity_pool::slash::{Slashing, create_slash_event, slash};
use positions::Key;
use types::{Amount, Epoch};

// The publisher's next slash event. The answer: its epoch, the current one.
#[tactic(auto, unfolding(crate::specs::Inputs::key_of, integrity_pool::specs::Changes::created_in))]
#[unsafe(no_mangle)]
pub extern "C" fn pool_mirror_create_slash_event(
    pool: &mut [u64],
    p: usize,
    e: usize,
    current_epoch: u64,
    publisher: &[u64; 4],
    index: u64,
    answer: &mut [u64; 1],
) -> u64
    ensures value { result ≡ number_of (create_slash_event_call p e pool.old (key_of publisher.now) index) }
    ensures pool_after { pool.new ≡ changed_image p e pool.old (create_slash_event_call p e pool.old (key_of publisher.now) index) }
    ensures answer_after { answer.new ≡ one_answer answer.old (created_in current_epoch (create_slash_event_call p e pool.old (key_of publisher.now) index)) }
{
    let whose = Key::from(*publisher);
    match create_slash_event(pool, p, e, whose, index, Epoch(current_epoch)) {
        Err(refusal) => refusal.into(),
        Ok(epoch) => {
            *answer = [epoch.0];
            0
        }
    }
}

// What a slash is given besides the pool.
#[tactic(auto, unfolding(crate::specs::Inputs::slashing_of, crate::specs::Inputs::key_of))]
fn slashing(
    current_epoch: u64,
    publisher: &[u64; 4],
    account: &[u64; 4],
    found: &[u64; 2],
    index: u64,
    event_epoch: u64,
    locked: u64,
    preunlocking: u64,
) -> Slashing
    ensures { result ≡ slashing_of current_epoch publisher.now account.now found.now index event_epoch locked preunlocking }
{
    Slashing {
        delegation_record: DelegationRecord::from(*found),
        delegation: delegation(current_epoch, publisher, account),
        index,
        slash_event_epoch: Epoch(event_epoch),
        locked_slashed: Amount(locked),
        preunlocking_slashed: Amount(preunlocking),
    }
}

// What a slash event took from an account leaves the publisher's totals, and the record moves past the event.
#[tactic(auto, unfolding(integrity_pool::specs::Changes::slashed_with))]
#[unsafe(no_mangle)]
pub extern "C" fn pool_mirror_slash(
    pool: &mut [u64],
    p: usize,
    e: usize,
    current_epoch: u64,
    publisher: &[u64; 4],
    account: &[u64; 4],
    found: &mut [u64; 2],
    index: u64,
    event_epoch: u64,
    locked: u64,
    preunlocking: u64,
) -> u64
    ensures value { result ≡ number_of (slash_call p e pool.old (slashing_of current_epoch publisher.now account.now found.old index event_epoch locked preunlocking)) }
    ensures pool_after { pool.new ≡ changed_image p e pool.old (slash_call p e pool.old (slashing_of current_epoch publisher.now account.now found.old index event_epoch locked preunlocking)) }
    ensures found_after { found.new ≡ slash_record found.old (slashed_with (slashing_of current_epoch publisher.now account.now found.old index event_epoch locked preunlocking) (slash_call p e pool.old (slashing_of current_epoch publisher.now account.now found.old index event_epoch locked preunlocking))) }
{
    let given = slashing(
        current_epoch,
        publisher,
        account,
        found,
        index,
        event_epoch,
        locked,
        preunlocking,
    );
    match slash(pool, p, e, &given) {
        Err(refusal) => refusal.into(),
        Ok(kept) => {
            *found = kept.into();
            0
        }
    }
}
