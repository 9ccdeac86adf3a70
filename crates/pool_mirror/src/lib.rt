// The library's functions for C: one for each call, with C's calling convention (include/pool_mirror.h); `pool_mirror_c` makes the static library of
// them. Each returns 0 or the refusal's number, and a refused call leaves pool, record and answer as they were. Arguments stand in the order of the
// journal's fields.
#![tactic(auto)]

ghost use Rattle.std.specs.Prelude.{◌≡◌};
ghost use Rattle.types.specs.Base.{outcome_of};
ghost use Rattle.integrity_pool.specs.Calls.{fresh_call, fresh_image, advance_call, advance_image, forecast_call};
ghost use Rattle.pool_mirror.specs.Inputs.{given_of};
ghost use Rattle.pool_mirror.specs.Answers.{number_of, advance_answer, one_answer};

use advance_plan::Given;
use types::refusals::Refusal;

pub mod changes;
pub mod client_split;
pub mod inputs;
pub mod payment;
pub mod position_state;
pub mod slash;
pub mod stake_account;

// The number of an answer that has no values.
pub fn number(answer: Result<(), Refusal>) -> u64
    ensures { result ≡ number_of (outcome_of answer) }
{
    match answer {
        Ok(()) => 0,
        Err(refusal) => u64::from(refusal),
    }
}

// A new pool.
#[unsafe(no_mangle)]
pub extern "C" fn pool_mirror_fresh(pool: &mut [u64], p: usize, e: usize, epoch: u64) -> u64
    ensures value { result ≡ number_of (fresh_call p e pool.old epoch) }
    ensures pool_after { pool.new ≡ fresh_image p e pool.old epoch }
{
    number(integrity_pool::fresh(pool, p, e, epoch))
}

// What an advance or a forecast is given besides the pool and the message.
fn given(current_epoch: u64, y: u64, custody: u64, verified: u64, epoch_duration: u64) -> Given
    ensures { result ≡ given_of current_epoch y custody verified epoch_duration }
{
    Given {
        current_epoch,
        y,
        pool_reward_custody_balance: custody,
        epoch_duration,
        is_verified: verified,
    }
}

// The epochs up to the current one are passed. The answer: y', what is set aside, rows matched, seated and dropped.
#[unsafe(no_mangle)]
pub extern "C" fn pool_mirror_advance(
    pool: &mut [u64],
    p: usize,
    e: usize,
    current_epoch: u64,
    y: u64,
    custody: u64,
    verified: u64,
    caps: &[u8],
    epoch_duration: u64,
    answer: &mut [u64; 5],
) -> u64
    ensures value { result ≡ number_of (advance_call p e pool.old caps.now (given_of current_epoch y custody verified epoch_duration)) }
    ensures pool_after { pool.new ≡ advance_image p e pool.old caps.now (given_of current_epoch y custody verified epoch_duration) }
    ensures answer_after { answer.new ≡ advance_answer answer.old (advance_call p e pool.old caps.now (given_of current_epoch y custody verified epoch_duration)) }
{
    let given = given(current_epoch, y, custody, verified, epoch_duration);
    match integrity_pool::advance(pool, p, e, caps, given) {
        Err(refusal) => refusal.into(),
        Ok(advanced) => {
            *answer = advanced.into();
            0
        }
    }
}

// What an advance would set aside, every passed epoch taken at the rolled totals.
#[unsafe(no_mangle)]
pub extern "C" fn pool_mirror_forecast(
    pool: &[u64],
    p: usize,
    e: usize,
    current_epoch: u64,
    y: u64,
    custody: u64,
    verified: u64,
    caps: &[u8],
    epoch_duration: u64,
    answer: &mut [u64; 1],
) -> u64
    ensures value { result ≡ number_of (forecast_call p e pool.now caps.now (given_of current_epoch y custody verified epoch_duration)) }
    ensures answer_after { answer.new ≡ one_answer answer.old (forecast_call p e pool.now caps.now (given_of current_epoch y custody verified epoch_duration)) }
{
    let given = given(current_epoch, y, custody, verified, epoch_duration);
    match integrity_pool::forecast(pool, p, e, caps, given) {
        Err(refusal) => refusal.into(),
        Ok(aside) => {
            *answer = [aside.0];
            0
        }
    }
}
