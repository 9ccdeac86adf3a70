// Item 8: the amounts of all positions with one publisher gather per ring slot.
#![tactic(auto)]

ghost use Rattle.std.specs.Prelude.{◌≡◌, ◌≤◌, length, map};
ghost use Rattle.image.specs.Pool.{words_of};
ghost use Rattle.event_amounts.specs.Records.{records_words};
ghost use Rattle.event_amounts.specs.Gathered.{GatheredOf};

use crate::as_position::AsPosition;
use event_walk::EventAmounts;
use event_walk::newest::read_newest;
use event_walk::span::span_of;
use image::pool_data::PoolData;
use positions::Key;

pub mod as_position;

// The walks of all positions with the publisher, in their order. The events are read once for all of them. No slot has more than
// `drawn`, what the positions draw in all: as long as that is a word every walk has room.
pub fn gather<T: AsPosition>(
    pool: PoolData<'_>,
    positions: &[T],
    publisher: Key,
    from_epoch: u64,
    unlocking_duration: u64,
) -> Option<EventAmounts>
    requires { length positions.now ≤ 256 }
    ensures { GatheredOf pool.entry.e (words_of pool.entry) (records_words (map T.as_position positions.now)) publisher from_epoch unlocking_duration result }
{
    let newest = read_newest(pool, from_epoch);
    let mut gathered = EventAmounts::new();
    let mut drawn: u64 = 0;
    for position in positions {
        if !position.in_publisher(publisher) {
            continue;
        }
        let span = span_of(&newest, position.position(), unlocking_duration)?;
        drawn = match drawn.checked_add(span.amount) {
            Some(sum) => sum,
            None => {
                // A copy is handed to the call, so that the span stays in registers.
                let asked = span;
                if !gathered.has_room(&newest, asked) {
                    return None;
                }
                u64::MAX
            }
        };
        gathered.walk(&newest, span);
    }
    Some(gathered)
}
