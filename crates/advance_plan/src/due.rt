// Whether an advance is due, and how many epochs have passed.
ghost use Rattle.std.specs.Prelude.{◌≡◌, ◌≤◌};
ghost use Rattle.types.specs.Base.{outcome_of};
ghost use Rattle.advance_plan.specs.Plan.{due_of};

use crate::Given;
use types::SIGNED_LIMIT;
use types::refusals::Refusal;

// Refusals 7, 8, 13 for a negative time, and 9, or how many epochs have passed.
#[tactic(auto, unfolding(crate::specs::Plan::due_of))]
pub fn epochs_due(last_updated_epoch: u64, publish_time: u64, given: Given) -> Result<u64, Refusal>
    requires { 1 ≤ given.epoch_duration }
    ensures { outcome_of result ≡ due_of last_updated_epoch publish_time given }
{
    let current_epoch = given.current_epoch;
    if given.is_verified != 1 {
        return Err(Refusal::UnverifiedPublisherCaps);
    }
    if current_epoch <= last_updated_epoch {
        return Err(Refusal::PoolDataAlreadyUpToDate);
    }
    if SIGNED_LIMIT <= publish_time {
        return Err(Refusal::DoesNotFit);
    }
    if current_epoch != publish_time / given.epoch_duration {
        return Err(Refusal::OutdatedPublisherCaps);
    }
    Ok(current_epoch - last_updated_epoch)
}
