// The words of the pool as a whole.
#![tactic(auto, unfolding(crate::specs::Layout::read))]

ghost use Rattle.std.specs.Prelude.{◌≡◌};
ghost use Rattle.image.specs.Layout.{last_updated_epoch, claimable_rewards, num_events, head};
ghost use Rattle.image.specs.Seats.{with_head};
ghost use Rattle.image.specs.Pool.{words_of, words_in, Becomes};

use crate::num_events_at;
use crate::pool_data::{PoolData, PoolDataMut};

// Where they stand; the third one, the event count, stands behind the events.
const LAST_UPDATED_EPOCH: usize = 0;

const CLAIMABLE_REWARDS: usize = 1;

impl PoolData<'_> {
    // The epoch that the pool has been advanced to.
    pub fn last_updated_epoch(self) -> u64
        ensures { result ≡ words_of self.entry (head last_updated_epoch) }
    {
        self.words[LAST_UPDATED_EPOCH]
    }

    // What has been set aside for payments and not been paid.
    pub fn claimable_rewards(self) -> u64
        ensures { result ≡ words_of self.entry (head claimable_rewards) }
    {
        self.words[CLAIMABLE_REWARDS]
    }

    // How many events there have been, those that the ring no longer keeps with them.
    pub fn num_events(self) -> u64
        ensures { result ≡ words_of self.entry (head num_events) }
    {
        self.words[num_events_at(self.p, self.e)]
    }
}

impl PoolDataMut<'_> {
    #[tactic(auto, using(crate::proofs::WriteLaws::head_written))]
    pub fn set_last_updated_epoch(&mut self, epoch: u64)
        ensures { Becomes self.old self.new (with_head (words_in self.old) last_updated_epoch epoch) }
    {
        self.words[LAST_UPDATED_EPOCH] = epoch;
    }

    #[tactic(auto, using(crate::proofs::WriteLaws::head_written))]
    pub fn set_claimable_rewards(&mut self, amount: u64)
        ensures { Becomes self.old self.new (with_head (words_in self.old) claimable_rewards amount) }
    {
        self.words[CLAIMABLE_REWARDS] = amount;
    }

    #[tactic(auto, using(crate::proofs::WriteLaws::head_written))]
    pub fn set_num_events(&mut self, count: u64)
        ensures { Becomes self.old self.new (with_head (words_in self.old) num_events count) }
    {
        let at = num_events_at(self.p, self.e);
        self.words[at] = count;
    }
}
