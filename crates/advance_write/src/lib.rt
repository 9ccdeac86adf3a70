// All that an accepted advance writes, once it has been worked out.
#![tactic(auto)]

ghost use Rattle.image.specs.Pool.{words_in, Becomes};
ghost use Rattle.advance_plan.specs.Advance.{advanced_words};
ghost use Rattle.advance_plan.specs.Plan.{Worked};

use crate::events::{passed_epochs, write_events};
use crate::head::write_head;
use crate::rows::seat_rows;
use crate::sides::roll_sides;
use advance_plan::plan::AdvancePlan;
use advance_plan::table::SeatTable;
use image::pool_data::PoolDataMut;
use publisher_caps::PublisherCaps;
use types::Epoch;

pub mod events;
pub mod head;
pub mod rows;
pub mod sides;

// The events, the sides, the keys of new publishers, then the words of the pool as a whole.
#[tactic(auto, using(crate::proofs::WriteLaws::all_roll))]
pub fn write_advance<const P: usize>(
    pool: &mut PoolDataMut<'_>,
    caps: PublisherCaps<'_>,
    epoch: Epoch,
    plan: &AdvancePlan,
    table: &SeatTable<P>,
)
    requires { Worked pool.old.p (words_in pool.old) caps.message.now plan.now table.now epoch.0 }
    ensures { Becomes pool.old pool.new (advanced_words pool.old.p pool.old.e (words_in pool.old) caps.entry.message.now epoch.0 plan.now.y.0 plan.now.set_aside.0) }
{
    let epochs = passed_epochs(pool.read(), epoch, plan.y);
    write_events(pool, plan.seats, epochs, table);
    roll_sides(pool, plan.seats);
    seat_rows(pool, plan.seats, caps, &plan.marks);
    write_head(pool, epoch, plan.set_aside);
}
