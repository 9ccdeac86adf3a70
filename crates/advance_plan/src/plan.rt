// All that is worked out before the first write.
ghost use Rattle.std.specs.Prelude.{◌≡◌, ◌^◌, ◌<◌, ◌≤◌, IfOk};
ghost use Rattle.types.specs.Base.{outcome_by};
ghost use Rattle.event.specs.Adjust.{adjusted_as};
ghost use Rattle.image.specs.Pool.{words_of};
ghost use Rattle.advance_plan.specs.Stake.{Capped};
ghost use Rattle.advance_plan.specs.Plan.{Ready, adjust_fit, planned_of, planned_as, Worked};

use crate::table::SeatTable;
use crate::{Given, due, rows, stake};
use event::adjust::{Adjusted, adjust_rewards_if_needed};
use image::pool_data::PoolData;
use publisher_caps::PublisherCaps;
use types::bool_array::BoolArray;
use types::refusals::Refusal;
use types::{Amount, Ratio, SIGNED_LIMIT};

// y', the amount set aside, how many seats there are, and the marks of the matched rows. That the seats are in a pool
// is asked by each call that takes both: a plan holds no pool, since the pool is written while the plan is read.
#[derive(Clone, Copy, Debug, PartialEq, Eq)]
pub struct AdvancePlan {
    pub y: Ratio,
    pub set_aside: Amount,
    pub seats: usize,
    pub marks: BoolArray,
}

// 13 where the sum of eligible amounts or the event count does not fit, else item 5.
#[tactic(auto, unfolding(crate::specs::Plan::adjust_fit))]
fn adjust(
    sum: Option<u64>,
    num_events: u64,
    passed: u64,
    claimable: u64,
    given: Given,
) -> Result<Adjusted, Refusal>
    requires { num_events < 2 ^ 63 }
    ensures { outcome_by adjusted_as result ≡ adjust_fit sum num_events passed claimable given }
{
    let total = sum.ok_or(Refusal::DoesNotFit)?;
    if SIGNED_LIMIT - num_events <= passed {
        return Err(Refusal::DoesNotFit);
    }
    adjust_rewards_if_needed(
        Amount(claimable),
        Ratio(given.y),
        Amount(total),
        Amount(given.pool_reward_custody_balance),
    )
}

// Pool, message and inputs come together in five functions, with `Ready`: a struct of them would have to be made anew where the pool is written.
// y' and the amount set aside, or refusals 7, 8, 13 for a negative time, 9, other 13; each seat's cap, ratios and fee go to the table.
// `every_rolled` is the forecast's reading: every passed epoch at the rolled totals. A `bool`, as the definition
// `sum_of` takes it: the readings differ in one number, the first epoch's sum, so an enum would be a second name for them.
#[tactic(auto, using(crate::proofs::PlanLaws::plans, image::proofs::SeatLaws::seats_le))]
pub fn plan<const P: usize>(
    pool: PoolData<'_>,
    caps: PublisherCaps<'_>,
    given: Given,
    every_rolled: bool,
    table: &mut SeatTable<P>,
) -> Result<AdvancePlan, Refusal>
    requires ready { Ready (words_of pool) given }
    requires room { pool.p ≤ P }
    ensures answer { outcome_by planned_as result ≡ planned_of every_rolled pool.entry.p (words_of pool.entry) caps.entry.message.now given }
    ensures worked { IfOk result (λ plan. Worked pool.entry.p (words_of pool.entry) caps.entry.message.now plan table.new given.current_epoch) }
    ensures caps { IfOk result (λ plan. Capped (words_of pool.entry) caps.entry.message.now plan.seats table.new.caps) }
{
    let last = pool.last_updated_epoch();
    let claimable = pool.claimable_rewards();
    let passed = due::epochs_due(last, caps.publish_time(), given)?;
    let seats = pool.seats();
    let marks = rows::match_rows(pool, caps, seats, table);
    let sums = stake::sum_eligible(pool, seats, table)?;
    let sum = sums.over(passed, every_rolled);
    let Adjusted { y, set_aside } = adjust(sum, pool.num_events(), passed, claimable, given)?;
    Ok(AdvancePlan {
        y,
        set_aside,
        seats,
        marks,
    })
}
