// The pool image: the words of the Rust's PoolData, where they stand, and refusal 1.
#![tactic(auto)]

ghost use Rattle.std.specs.Prelude.{◌≡◌, ◌≤◌};
ghost use Rattle.image.specs.Layout.{event_at, num_events_at};
ghost use Rattle.image.specs.Seats.{size_of, sized_image, checked_image, Cleared};

use types::SIGNED_LIMIT;

pub mod changes;
pub mod events;
pub mod head;
pub mod pool_data;
pub mod seats;

pub const MAX_PUBLISHERS: usize = 1024;

pub const MAX_EVENTS: usize = 52;

// Where slot t's event begins. It takes P alone, since a pool that is read, one that is written and `num_events_at`, which has no pool, ask it.
pub fn event_at(p: usize, t: usize) -> usize
    requires { (p ≤ 1024) × (t ≤ 52) }
    ensures { result ≡ event_at p t }
{
    2 + 12 * p + t * (9 + 3 * p)
}

// Where the event count stands, behind the last slot. `size` and `checked` ask it too, which have no `PoolData`.
pub fn num_events_at(p: usize, e: usize) -> usize
    requires { (p ≤ 1024) × (e ≤ 52) }
    ensures { result ≡ num_events_at p e }
{
    event_at(p, e)
}

// The words of a pool of p seats and e events, asked before there is a pool. Where there is no such pool it is 0, as its definition says:
// a public function that could not fail still cannot, and `new` lays out as many.
#[tactic(auto, using(crate::proofs::PlaceLaws::slot_small), unfolding(crate::specs::Seats::size_of))]
pub fn size(p: usize, e: usize) -> usize
    ensures is { result ≡ size_of p e }
    ensures small { result ≤ 174551 }
{
    if p < 1 || MAX_PUBLISHERS < p || e < 1 || MAX_EVENTS < e {
        return 0;
    }
    num_events_at(p, e) + 1 + 2 * p
}

// P and E are in range, and the image has the words of such a pool. It is asked before there is a `PoolData`, as `checked` is.
#[tactic(auto, unfolding(crate::specs::Seats::size_of, crate::specs::Seats::sized_image))]
pub fn sized(pool: &[u64], p: usize, e: usize) -> bool
    ensures { result ≡ sized_image p e pool.now }
{
    let words = size(p, e);
    words != 0 && pool.len() == words
}

// Refusal 1 is given where this is false: besides, the event count is below 2^63.
#[tactic(auto, using(crate::proofs::SeatLaws::sized_says, crate::proofs::PlaceLaws::slot_small), unfolding(crate::specs::Seats::checked_image, crate::specs::Layout::read))]
pub fn checked(pool: &[u64], p: usize, e: usize) -> bool
    ensures { result ≡ checked_image p e pool.now }
{
    sized(pool, p, e) && pool[num_events_at(p, e)] < SIGNED_LIMIT
}

// Sets every word to zero.
pub fn clear(pool: &mut [u64])
    ensures { Cleared pool.old pool.new }
{
    pool.fill(0);
}
