// The public calls. Nothing is required of the caller: what does not hold is refused, with document 01's number, and a refused call changes
// no word. So each call takes the words with P and E: a struct of them that had been checked would ask more, and one that had not would say no more.
#![tactic(auto)]

ghost use Rattle.std.specs.Prelude.{◌≡◌, ◌<◌, OnOk};
ghost use Rattle.types.specs.Base.{half, accepted, outcome_of, outcome_by};
ghost use Rattle.types.specs.declared.Amount.{Amount};
ghost use Rattle.image.specs.Layout.{num_events, head, read};
ghost use Rattle.image.specs.Seats.{Sized};
ghost use Rattle.pool.specs.Answers.{advanced_as, amount_as};
ghost use Rattle.integrity_pool.specs.Calls.{fresh_call, fresh_image, checked_then, message_as, advance_call, advance_image, forecast_call};

use advance_plan::Given;
use image::pool_data::{PoolData, PoolDataMut};
use pool::advance::Advanced;
use publisher_caps::PublisherCaps;
use types::Amount;
use types::refusals::Refusal;

pub mod changes;
pub mod payment;
pub mod slash;
pub mod stake_account;

// The highest y that initialize_pool and update_y take.
const MAX_Y: u64 = 10_000;

// Item 9's fresh pool: every word zero but the last epoch, one below the given one.
#[tactic(auto, using(image::proofs::SeatLaws::sized_says, image::proofs::HoldsLaws::fresh_image_law), unfolding(crate::specs::Calls::fresh_call, crate::specs::Calls::fresh_image))]
pub fn fresh(pool: &mut [u64], p: usize, e: usize, epoch: u64) -> Result<(), Refusal>
    ensures answer { outcome_of result ≡ fresh_call p e pool.old epoch }
    ensures image { pool.new ≡ fresh_image p e pool.old epoch }
{
    if !image::sized(&pool[..], p, e) {
        return Err(Refusal::InvalidImage);
    }
    if epoch == 0 {
        return Err(Refusal::InvalidEpoch);
    }
    image::clear(pool);
    PoolDataMut::new(pool, p, e).set_last_updated_epoch(epoch - 1);
    Ok(())
}

// What an advance and a forecast check before the pool itself is looked at: 1, 2, 3 and 5. It takes P and E beside the words, as the pool is not
// checked yet, and says what was checked in clauses, as the pool is lent anew for the writes.
#[tactic(auto, using(image::proofs::SeatLaws::checked_says), unfolding(crate::specs::Calls::checked_then))]
fn check_inputs<'a>(
    pool: &[u64],
    p: usize,
    e: usize,
    m: &'a [u8],
    given: Given,
) -> Result<PublisherCaps<'a>, Refusal>
    ensures answer { outcome_by message_as result ≡ checked_then p e pool.now m.now given (accepted m.now) }
    ensures sized { OnOk result (Sized pool.now p e) }
    ensures count { OnOk result (read p e pool.now (head num_events) < half) }
{
    PoolData::check(pool, p, e)?;
    if given.epoch_duration == 0 {
        return Err(Refusal::InvalidEpoch);
    }
    let caps = PublisherCaps::check(m)?;
    if MAX_Y < given.y {
        return Err(Refusal::InvalidY);
    }
    Ok(caps)
}

// Items 4 and 5: the epochs up to the current one are passed.
#[tactic(auto, unfolding(crate::specs::Calls::advance_call, crate::specs::Calls::advance_image, crate::specs::Calls::checked_then, pool::specs::Answers::image_after))]
pub fn advance(
    pool: &mut [u64],
    p: usize,
    e: usize,
    m: &[u8],
    given: Given,
) -> Result<Advanced, Refusal>
    ensures answer { outcome_by advanced_as result ≡ advance_call p e pool.old m.now given }
    ensures image { pool.new ≡ advance_image p e pool.old m.now given }
{
    let caps = check_inputs(&pool[..], p, e, m, given)?;
    pool::advance::advance(&mut PoolDataMut::new(pool, p, e), caps, given)
}

// What an advance would set aside, every passed epoch taken at the rolled totals.
#[tactic(auto, unfolding(crate::specs::Calls::forecast_call, crate::specs::Calls::checked_then))]
pub fn forecast(pool: &[u64], p: usize, e: usize, m: &[u8], given: Given) -> Result<Amount, Refusal>
    ensures { outcome_by amount_as result ≡ forecast_call p e pool.now m.now given }
{
    let caps = check_inputs(pool, p, e, m, given)?;
    pool::advance::forecast(PoolData { words: pool, p, e }, caps, given)
}
