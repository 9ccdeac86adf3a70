// The words of the pool as a whole.
ghost use Rattle.image.specs.Pool.{words_in, Becomes};
ghost use Rattle.advance_write.specs.Head.{head_words, HeadFits};

use image::pool_data::PoolDataMut;
use types::{Amount, Epoch};

// Last epoch becomes `epoch`, the event count grows by the epochs passed, claimable by the amount set aside.
pub fn write_head(pool: &mut PoolDataMut<'_>, epoch: Epoch, set_aside: Amount)
    requires { HeadFits (words_in pool.old) epoch.0 set_aside.0 }
    ensures { Becomes pool.old pool.new (head_words (words_in pool.old) epoch.0 set_aside.0) }
{
    let found = pool.read();
    let last = found.last_updated_epoch();
    let claimable = found.claimable_rewards() + set_aside.0;
    let count = found.num_events() + (epoch.0 - last);
    pool.set_last_updated_epoch(epoch.0);
    pool.set_claimable_rewards(claimable);
    pool.set_num_events(count);
}
