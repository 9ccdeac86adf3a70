// The static library: one function for each call, with C's calling convention (include/pool_mirror.h). Each is the function of the same name in
// `pool_mirror`, a library for Rattle code, and promises word for word what it promises.
#![tactic(auto)]

ghost use Rattle.std.specs.Prelude.{◌≡◌};
ghost use Rattle.integrity_pool.specs.Calls.{fresh_call, fresh_image, advance_call, advance_image, forecast_call};
ghost use Rattle.pool_mirror.specs.Inputs.{given_of};
ghost use Rattle.pool_mirror.specs.Answers.{number_of, advance_answer, one_answer};

pub mod changes;
pub mod client_split;
pub mod payment;
pub mod position_state;
pub mod slash;
pub mod stake_account;

// A new pool.
#[unsafe(no_mangle)]
pub extern "C" fn pool_mirror_fresh(pool: &mut [u64], p: usize, e: usize, epoch: u64) -> u64
    ensures value { result ≡ number_of (fresh_call p e pool.old epoch) }
    ensures pool_after { pool.new ≡ fresh_image p e pool.old epoch }
{
    pool_mirror::pool_mirror_fresh(pool, p, e, epoch)
}

// The epochs up to the current one are passed. The answer: y', what is set aside, rows matched, seated and dropped.
#[unsafe(no_mangle)]
pub extern "C" fn pool_mirror_advance(
    pool: &mut [u64],
    p: usize,
    e: usize,
    current_epoch: u64,
    y: u64,
    custody: u64,
    verified: u64,
    caps: &[u8],
    epoch_duration: u64,
    answer: &mut [u64; 5],
) -> u64
    ensures value { result ≡ number_of (advance_call p e pool.old caps.now (given_of current_epoch y custody verified epoch_duration)) }
    ensures pool_after { pool.new ≡ advance_image p e pool.old caps.now (given_of current_epoch y custody verified epoch_duration) }
    ensures answer_after { answer.new ≡ advance_answer answer.old (advance_call p e pool.old caps.now (given_of current_epoch y custody verified epoch_duration)) }
{
    pool_mirror::pool_mirror_advance(
        pool,
        p,
        e,
        current_epoch,
        y,
        custody,
        verified,
        caps,
        epoch_duration,
        answer,
    )
}

// What an advance would set aside, every passed epoch taken at the rolled totals.
#[unsafe(no_mangle)]
pub extern "C" fn pool_mirror_forecast(
    pool: &[u64],
    p: usize,
    e: usize,
    current_epoch: u64,
    y: u64,
    custody: u64,
    verified: u64,
    caps: &[u8],
    epoch_duration: u64,
    answer: &mut [u64; 1],
) -> u64
    ensures value { result ≡ number_of (forecast_call p e pool.now caps.now (given_of current_epoch y custody verified epoch_duration)) }
    ensures answer_after { answer.new ≡ one_answer answer.old (forecast_call p e pool.now caps.now (given_of current_epoch y custody verified epoch_duration)) }
{
    pool_mirror::pool_mirror_forecast(
        pool,
        p,
        e,
        current_epoch,
        y,
        custody,
        verified,
        caps,
        epoch_duration,
        answer,
    )
}
