// The newest events: their slots and epochs, newest first.
ghost use Rattle.std.specs.Prelude.{◌≡◌, ◌≤◌, ◌<◌, length};
ghost use Rattle.image.specs.Pool.{words_of};
ghost use Rattle.event_walk.specs.Walk.{walk_length};
ghost use Rattle.event_walk.specs.Walked.{slot_before, epochs_of, NewestOf};

use image::MAX_EVENTS;
use image::pool_data::PoolData;

// The epochs of the newest events that are not older than the record's, newest first; how many they are; and how many events each walk reads.
// The epochs stand in an array, since a caller may copy them, and an ArrayVec is not copied. Those behind the last one are 0 where they were read.
#[derive(Clone, Copy, Debug, PartialEq, Eq)]
pub struct Newest {
    pub epochs: [u64; MAX_EVENTS],
    pub meets: usize,
    pub reads: usize,
}

impl Newest {
    // The epochs of the events met: no more than there is room for, whatever `meets` is.
    #[tactic(auto, using(crate::proofs::NewestLaws::taken))]
    pub fn epochs(&self) -> &[u64]
        ensures epochs { result.now ≡ epochs_of self.now }
        ensures few { length result.now ≤ 52 }
    {
        &self.epochs[..self.meets.min(MAX_EVENTS)]
    }
}

// The slot in front of a slot, around the ring. Walks go by it, here and in `pool`. With a division for each slot instead, by events' numbers as in
// `show`, tried and proved, a payment of 1 position over 52 events takes 1.33 of what it took, 1,181 ns for 888, where no call may take more than 1.05.
#[tactic(auto, unfolding(crate::specs::Walked::slot_before))]
pub fn slot_before(slot: usize, e: usize) -> usize
    requires { slot < e }
    ensures { result ≡ slot_before e slot }
{
    if slot == 0 { e - 1 } else { slot - 1 }
}

// At most E events, and no more than there are.
#[tactic(auto, unfolding(crate::specs::Walk::walk_length))]
pub fn walk_length(pool: PoolData<'_>) -> usize
    ensures steps { result ≡ walk_length pool.entry.e (words_of pool.entry) }
    ensures few { result ≤ pool.entry.e }
{
    pool.num_events().min(pool.e as u64) as usize
}

// Reads the epochs of the newest events up to the first that is older than `from`.
#[tactic(auto, using(crate::proofs::WalkLaws::before_lt, crate::proofs::WalkLaws::slot_start))]
pub fn read_newest(pool: PoolData<'_>, from: u64) -> Newest
    ensures { NewestOf pool.entry.e (words_of pool.entry) from result }
{
    let mut epochs = [0; MAX_EVENTS];
    let mut slot = (pool.num_events() % (pool.e as u64)) as usize;
    let steps = walk_length(pool);
    for k in 0..steps {
        slot = slot_before(slot, pool.e);
        let epoch = pool.event_epoch(slot);
        if epoch < from {
            return Newest {
                epochs,
                meets: k,
                reads: k + 1,
            };
        }
        epochs[k] = epoch;
    }
    Newest {
        epochs,
        meets: steps,
        reads: steps,
    }
}
