// What refusal 4 asks of a list of position records.
ghost use Rattle.std.specs.Prelude.{◌≡◌};
ghost use Rattle.positions.specs.Positions.{positions_hold};
ghost use Rattle.event_amounts.specs.Records.{records_words};

use positions::list::MAX_POSITIONS;
use positions::position::Position;

// Refusal 4 is due where this is false.
#[tactic(auto, using(crate::proofs::RecordLaws::too_many))]
pub fn checked(positions: &[Position]) -> bool
    ensures { result ≡ positions_hold (records_words positions.now) }
{
    positions.len() <= MAX_POSITIONS && positions.iter().all(Position::holds)
}
