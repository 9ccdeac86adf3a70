// The seats' caps, ratios and fees, as they are worked out.
ghost use Rattle.std.specs.Prelude.{◌≡◌, ◌*◌, length, replicate};

// Room for P seats: a cap for each, and its three words in an event, self ratio, other ratio and fee: those of the first passed epoch, and of every
// later one. A short pool has a short table, since clearing a long one would take more than all else.
// Three arrays, not one of seats: the shares stand as they do in an event, into which they are copied as one slice.
// It has no `Clone` and no `Copy`, so that no call takes a copy of its 56 KB. That a pool's seats have room is asked by each call that takes
// both, and no struct says it: one that held pool and table could not stand while the pool is written, and each call would make it anew.
#[derive(Debug, PartialEq, Eq, Drop)]
pub struct SeatTable<const P: usize> {
    pub caps: [u64; P],
    pub first_shares: [[u64; 3]; P],
    pub later_shares: [[u64; 3]; P],
}

impl<const P: usize> SeatTable<P> {
    ghost use Rattle.advance_plan.specs.Stake.{shares_in};

    pub fn new() -> SeatTable<P>
        ensures caps { result.caps ≡ replicate P 0 }
        ensures first { result.first_shares ≡ replicate P (replicate 3 0) }
        ensures later { result.later_shares ≡ replicate P (replicate 3 0) }
    {
        SeatTable {
            caps: [0; P],
            first_shares: [[0; 3]; P],
            later_shares: [[0; 3]; P],
        }
    }

    // The seats' words in the event of the k-th passed epoch, from 0.
    pub fn shares(&self, k: u64) -> &[u64]
        ensures shares { result.now ≡ shares_in self.now k }
        ensures long { length result.now ≡ P * 3 }
    {
        if k == 0 {
            self.first_shares.as_flattened()
        } else {
            self.later_shares.as_flattened()
        }
    }
}
