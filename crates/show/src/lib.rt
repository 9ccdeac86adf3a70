// The pool as a table for people. Behind `ok N` come N lines:
//
//   last epoch  14
//   claimable   123
//   events      6
//   seats       2 of 4
//   seat  publisher           side                  total                change      fee  slash events  stake account
//      0  01020304..1d1e1f20  self                    100                    -5   100000             0  aabbccdd..11223344
//                             other                  2000                    50
//                  event                  slot                 epoch                     y
//                      5                     1                    13                 10000
//
// Every line begins with two spaces, and two stand between columns. A seat has 4 places, a fee 7, slash events 12, a side's figures and those of
// an event 20 each, all to the right; a longer number moves the rest of its line. A key is its first four bytes and its last four, the zero
// key `none`. Shown are the seats that have a publisher, those behind an empty one too, and the newest events, the newest first.
#![tactic(auto)]

ghost use Rattle.std.specs.Prelude.{◌≡◌, ◌≤◌};
ghost use Rattle.journal.specs.declared.output.TheConstants.{ROOM};
ghost use Rattle.show.specs.Rows.{lines_of};

use event_walk::newest;
use image::pool_data::PoolData;
use journal::answer;
use journal::output::Pen;
use std::fmt;
use std::fmt::Write;

pub mod cells;
pub mod events;
pub mod seats;

// How many lines follow the first.
fn lines(seats: usize, events: usize) -> usize
    requires { (seats ≤ 1024) × (events ≤ 52) }
    ensures { result ≡ lines_of seats events }
{
    6 + 2 * seats + events
}

// The lines on the pool as a whole.
fn head(pool: PoolData<'_>, seats: usize, pen: &mut Pen) -> fmt::Result {
    writeln!(pen, "  last epoch  {}", pool.last_updated_epoch())?;
    writeln!(pen, "  claimable   {}", pool.claimable_rewards())?;
    writeln!(pen, "  events      {}", pool.num_events())?;
    writeln!(pen, "  seats       {seats} of {}", pool.p)
}

// All lines behind the first.
fn table(pool: PoolData<'_>, seats: usize, pen: &mut Pen) -> fmt::Result {
    head(pool, seats, pen)?;
    seats::rows(pool, pen)?;
    events::rows(pool, pen)
}

// The answer to `show`: refusal 1, or the table. It takes the words with P and E as they are at hand: they are checked here.
pub fn show(words: &[u64], p: usize, e: usize, pen: &mut Pen)
    ensures { pen.new.at ≤ ROOM }
{
    match PoolData::check(words, p, e) {
        Err(refusal) => answer::refused(pen, refusal),
        Ok(pool) => {
            let seats = seats::occupied(pool);
            let count = lines(seats, newest::walk_length(pool));
            answer::ok(pen, &[count as u64]);
            // A pen takes all text.
            let _ = table(pool, seats, pen);
        }
    }
}
