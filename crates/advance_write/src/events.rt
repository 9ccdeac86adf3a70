// The events: each passed epoch writes its own event's words, of which the ring keeps the newest E.
ghost use Rattle.std.specs.Prelude.{◌≡◌, ◌+◌, ◌≤◌, ◌<◌, length};
ghost use Rattle.image.specs.Layout.{last_updated_epoch, head};
ghost use Rattle.image.specs.Pool.{words_of, words_in, Becomes};
ghost use Rattle.advance_plan.specs.Stake.{shares_in};
ghost use Rattle.advance_write.specs.Events.{written_event, passed_epochs, epoch_words, events_words, Passing};

use advance_plan::table::SeatTable;
use image::event_at;
use image::pool_data::{PoolData, PoolDataMut};
use types::{Epoch, Ratio};

// An event's words in front of the seats': the one place for a word that is added to them.
#[derive(Clone, Copy, Debug, PartialEq, Eq)]
pub struct EventHead {
    pub epoch: Epoch,
    pub y: Ratio,
}

// The epochs that an advance passes: `passed` of them from the pool's last one on, the first of which writes event `num_events`.
#[derive(Clone, Copy, Debug, PartialEq, Eq)]
pub struct PassedEpochs {
    pub num_events: u64,
    pub last_updated_epoch: Epoch,
    pub passed: u64,
    pub y: Ratio,
}

// The epochs from the pool's last one to the one below `epoch`.
pub fn passed_epochs(pool: PoolData<'_>, epoch: Epoch, y: Ratio) -> PassedEpochs
    requires { words_of pool (head last_updated_epoch) ≤ epoch.0 }
    ensures { result ≡ passed_epochs (words_of pool.entry) epoch.0 y }
{
    let last = pool.last_updated_epoch();
    PassedEpochs {
        num_events: pool.num_events(),
        last_updated_epoch: Epoch(last),
        passed: epoch.0 - last,
        y,
    }
}

// Writes the event's head, and the seats' words.
fn write_event(event: &mut [u64], head: EventHead, shares: &[u64])
    requires { 9 + length shares.now ≤ length event.old }
    ensures { event.new ≡ written_event head shares.now event.old }
{
    event[0] = head.epoch.0;
    event[1] = head.y.0;
    event[9..9 + shares.len()].copy_from_slice(shares);
}

// Writes the event of the k-th passed epoch, from 0, into its slot: the first has ratios of its own.
fn write_epoch<const P: usize>(
    pool: &mut PoolDataMut<'_>,
    seats: usize,
    epochs: PassedEpochs,
    k: u64,
    table: &SeatTable<P>,
)
    requires passing { Passing pool.old.p seats epochs }
    requires room { seats ≤ P }
    requires passed { k < epochs.passed }
    ensures { Becomes pool.old pool.new (epoch_words pool.old.e (words_in pool.old) epochs seats k (shares_in table.now k)) }
{
    let number = epochs.num_events + k;
    let slot = (number % pool.e as u64) as usize;
    let from = event_at(pool.p, slot);
    let to = from + (9 + 3 * pool.p);
    let head = EventHead {
        epoch: Epoch(epochs.last_updated_epoch.0 + k),
        y: epochs.y,
    };
    let shares = &table.shares(k)[..seats * 3];
    write_event(&mut pool.words[from..to], head, shares);
}

// Writes the events of the newest passed epochs, at most as many as the ring holds.
#[tactic(auto, using(crate::proofs::RingLaws::late_begins))]
pub fn write_events<const P: usize>(
    pool: &mut PoolDataMut<'_>,
    seats: usize,
    epochs: PassedEpochs,
    table: &SeatTable<P>,
)
    requires passing { Passing pool.old.p seats epochs }
    requires room { seats ≤ P }
    ensures { Becomes pool.old pool.new (events_words pool.old.e (words_in pool.old) epochs seats table.now epochs.passed) }
{
    let from = epochs.passed.saturating_sub(pool.e as u64);
    for k in from..epochs.passed {
        write_epoch(pool, seats, epochs, k, table);
    }
}
