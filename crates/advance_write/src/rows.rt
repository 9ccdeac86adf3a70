// The seats that unmatched rows take.
ghost use Rattle.std.specs.Prelude.{◌≤◌};
ghost use Rattle.types.specs.BoolArray.{marked};
ghost use Rattle.image.specs.Pool.{words_in, Becomes};
ghost use Rattle.advance_write.specs.Rows.{keys_words};

use image::pool_data::PoolDataMut;
use publisher_caps::PublisherCaps;
use types::bool_array::BoolArray;

// Unmatched rows take seats in row order, from the first seat behind `seats`, while any is left.
#[tactic(auto, using(image::proofs::PoolLaws::becomes_itself))]
pub fn seat_rows(
    pool: &mut PoolDataMut<'_>,
    seats: usize,
    caps: PublisherCaps<'_>,
    marks: &BoolArray,
)
    requires { seats ≤ pool.old.p }
    ensures { Becomes pool.old pool.new (keys_words (words_in pool.old) caps.entry.message.now (marked marks.now.words) seats caps.entry.rows) }
{
    let unmatched = (0..caps.rows).filter(|&j| !marks.get(j));
    for (place, j) in (seats..pool.p).zip(unmatched) {
        pool.set_publisher(place, caps.get_cap(j).pubkey);
    }
}
