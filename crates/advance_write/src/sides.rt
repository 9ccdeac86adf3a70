// The sides of the seats, rolled into the next epoch.
ghost use Rattle.std.specs.Prelude.{◌≡◌, true, ◌≤◌, ◌<◌};
ghost use Rattle.types.specs.Base.{all_below};
ghost use Rattle.image.specs.Pool.{words_in, Becomes};
ghost use Rattle.advance_plan.specs.Advance.{seat_rolls};
ghost use Rattle.advance_write.specs.Sides.{rolled_seat, rolled_words};

use image::pool_data::PoolDataMut;
use image::seats::SeatSide;

// Both sides of seat s, by `unwrap`: `rolls` says that both fit, and a Result would have an error that no caller can meet.
fn roll_seat(pool: &mut PoolDataMut<'_>, s: usize)
    requires seat { s < pool.old.p }
    requires rolls { seat_rolls (words_in pool.old) s ≡ true }
    ensures { Becomes pool.old pool.new (rolled_seat (words_in pool.old) s) }
{
    let found = pool.read();
    let self_side = found.side(s, SeatSide::Own);
    let other_side = found.side(s, SeatSide::Other);
    let self_rolled = self_side.roll().unwrap();
    let other_rolled = other_side.roll().unwrap();
    pool.set_side(s, SeatSide::Own, self_rolled);
    pool.set_side(s, SeatSide::Other, other_rolled);
}

// The sides of the first seats, all of which roll.
#[tactic(auto, using(crate::proofs::SidesLaws::rolling))]
pub fn roll_sides(pool: &mut PoolDataMut<'_>, seats: usize)
    requires seats { seats ≤ pool.old.p }
    requires rolls { all_below seats (seat_rolls (words_in pool.old)) ≡ true }
    ensures { Becomes pool.old pool.new (rolled_words (words_in pool.old) seats) }
{
    for s in 0..seats {
        roll_seat(pool, s);
    }
}
