// The positions of a stake account as one list of words, nine for each.
ghost use Rattle.std.specs.Prelude.{◌≡◌, ◌/◌, length};
ghost use Rattle.std.specs.Simd.{first_chunks};
ghost use Rattle.types.specs.Base.{outcome_of};
ghost use Rattle.positions.specs.Positions.{position_holds, positions_hold, in_publisher, has_publisher};
ghost use Rattle.positions.specs.State.{state_call};

use crate::Key;
use crate::position::{Position, PositionState};
use types::Epoch;
use types::refusals::Refusal;

// The most positions that an account holds.
pub const MAX_POSITIONS: usize = 256;

// A list's positions: its whole nines. Words behind the last one are not looked at.
pub fn nines(words: &[u64]) -> &[[u64; 9]]
    ensures { result.now ≡ first_chunks 9 (length words.now / 9) words.now }
{
    words.as_chunks().0
}

// Whether one position is as it should be. The flag of an empty one is not read.
#[tactic(auto, unfolding(crate::specs::Positions::position_holds))]
pub fn holds(nine: &[u64; 9]) -> bool
    ensures { result ≡ position_holds nine.now 0 }
{
    Position::from(*nine).holds()
}

// Refusal 4 is due where this is false.
#[tactic(auto, unfolding(crate::specs::Positions::positions_hold))]
pub fn checked(words: &[u64]) -> bool
    ensures { result ≡ positions_hold words.now }
{
    words.len() % 9 == 0 && words.len() / 9 <= MAX_POSITIONS && nines(words).iter().all(holds)
}

// Whether a position is one in the publisher. Nothing but its kind and key is looked at.
#[tactic(auto, unfolding(crate::specs::Positions::in_publisher))]
pub fn in_publisher(nine: &[u64; 9], publisher: Key) -> bool
    ensures { result ≡ in_publisher nine.now 0 publisher }
{
    Position::from(*nine).in_publisher(publisher)
}

// Whether the list has a position in the publisher, so that any list will do.
pub fn has_target_with_parameters_exposure(words: &[u64], publisher: Key) -> bool
    ensures { result ≡ has_publisher words.now publisher }
{
    nines(words)
        .iter()
        .any(|nine| in_publisher(nine, publisher))
}

// The state of the position that the list is. Any list will do: one that is not one position as
// it should be is refused, and so is an empty one, which has no state.
#[tactic(auto, unfolding(crate::specs::State::state_call))]
pub fn position_state(
    position: &[u64],
    current_epoch: Epoch,
    unlocking_duration: u64,
) -> Result<PositionState, Refusal>
    ensures { outcome_of result ≡ state_call position.now current_epoch.0 unlocking_duration }
{
    match <&[u64; 9]>::try_from(position) {
        Ok(nine) if holds(nine) && nine[0] != 0 => {
            Position::from(*nine).get_current_position(current_epoch, unlocking_duration)
        }
        _ => Err(Refusal::InvalidPositions),
    }
}
