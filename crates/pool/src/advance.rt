// Items 4 and 5: an advance and a forecast, on an image and a message that have been checked.
ghost use Rattle.std.specs.Prelude.{◌≡◌, ◌≤◌};
ghost use Rattle.types.specs.Base.{outcome_by};
ghost use Rattle.image.specs.Pool.{words_of, words_in};
ghost use Rattle.advance_plan.specs.Advance.{forecast_of};
ghost use Rattle.advance_plan.specs.Plan.{Ready};
ghost use Rattle.pool.specs.Answers.{advanced_list, amount_as, AdvancesAs};

use advance_plan::Given;
use advance_plan::plan::plan;
use advance_plan::rows::row_counts;
use advance_plan::table::SeatTable;
use advance_write::write_advance;
use image::MAX_PUBLISHERS;
use image::pool_data::{PoolData, PoolDataMut};
use publisher_caps::PublisherCaps;
use types::refusals::Refusal;
use types::{Amount, Epoch, Ratio};

// The seats of a small pool, at most: such a one has a short table, since clearing a long one would take more than all else.
const SMALL: usize = 64;

// y', the amount set aside, and how many rows are matched, seated and dropped.
#[derive(Clone, Copy, Debug, PartialEq, Eq)]
pub struct Advanced {
    pub y: Ratio,
    pub set_aside: Amount,
    pub matched: u64,
    pub seated: u64,
    pub dropped: u64,
}

impl From<Advanced> for [u64; 5] {
    ghost from_gives = { λ advanced words. words ≡ advanced_list advanced };

    fn from(advanced: Advanced) -> [u64; 5] {
        [
            advanced.y.0,
            advanced.set_aside.0,
            advanced.matched,
            advanced.seated,
            advanced.dropped,
        ]
    }
}

// An advance, worked out in a table with room for P seats. All is worked out and tested before the first word is written.
#[tactic(auto, unfolding(crate::specs::Answers::image_after, advance_plan::specs::Advance::advance_of, advance_plan::specs::Plan::planned_of, advance_plan::specs::Plan::sum_of))]
fn advance_in<const P: usize>(
    pool: &mut PoolDataMut<'_>,
    caps: PublisherCaps<'_>,
    given: Given,
    table: &mut SeatTable<P>,
) -> Result<Advanced, Refusal>
    requires ready { Ready (words_in pool.old) given }
    requires room { pool.old.p ≤ P }
    ensures { AdvancesAs pool.old pool.new caps.entry.message.now given result }
{
    let plan = plan(pool.read(), caps, given, false, table)?;
    let counts = row_counts(plan.marks, caps.num_publishers(), pool.p - plan.seats);
    write_advance(pool, caps, Epoch(given.current_epoch), &plan, table);
    Ok(Advanced {
        y: plan.y,
        set_aside: plan.set_aside,
        matched: counts.matched,
        seated: counts.seated,
        dropped: counts.dropped,
    })
}

// With room as the pool has need of. `forecast` chooses so too: tables of two sizes are two types, and one function for both, given a closure that
// takes its table, would have to take it at either type.
pub fn advance(
    pool: &mut PoolDataMut<'_>,
    caps: PublisherCaps<'_>,
    given: Given,
) -> Result<Advanced, Refusal>
    requires { Ready (words_in pool.old) given }
    ensures { AdvancesAs pool.old pool.new caps.entry.message.now given result }
{
    if pool.p <= SMALL {
        advance_in(pool, caps, given, &mut SeatTable::<SMALL>::new())
    } else {
        let mut table = SeatTable::<MAX_PUBLISHERS>::new();
        advance_in(pool, caps, given, &mut table)
    }
}

// What an advance would set aside, every passed epoch taken at the rolled totals. Nothing is written: it stands beside `advance_in` since it is lent
// the pool to be read alone, and what both do is `plan`.
#[tactic(auto, unfolding(advance_plan::specs::Advance::forecast_of, advance_plan::specs::Plan::planned_of, advance_plan::specs::Plan::sum_of))]
fn forecast_in<const P: usize>(
    pool: PoolData<'_>,
    caps: PublisherCaps<'_>,
    given: Given,
    table: &mut SeatTable<P>,
) -> Result<Amount, Refusal>
    requires ready { Ready (words_of pool) given }
    requires room { pool.p ≤ P }
    ensures { outcome_by amount_as result ≡ forecast_of pool.entry.p (words_of pool.entry) caps.entry.message.now given }
{
    let plan = plan(pool, caps, given, true, table)?;
    Ok(plan.set_aside)
}

// With room as the pool has need of.
pub fn forecast(
    pool: PoolData<'_>,
    caps: PublisherCaps<'_>,
    given: Given,
) -> Result<Amount, Refusal>
    requires { Ready (words_of pool) given }
    ensures { outcome_by amount_as result ≡ forecast_of pool.entry.p (words_of pool.entry) caps.entry.message.now given }
{
    if pool.p <= SMALL {
        forecast_in(pool, caps, given, &mut SeatTable::<SMALL>::new())
    } else {
        let mut table = SeatTable::<MAX_PUBLISHERS>::new();
        forecast_in(pool, caps, given, &mut table)
    }
}
