// The states of a position, as a line's field has them and an answer.
ghost use Rattle.std.specs.Prelude.{◌≡◌};
ghost use Rattle.journal.specs.States.{state_name, state_of};

use crate::names::{Named, with_name};
use positions::position::PositionState;

const STATES: [PositionState; 5] = [
    PositionState::LOCKING,
    PositionState::LOCKED,
    PositionState::PREUNLOCKING,
    PositionState::UNLOCKING,
    PositionState::UNLOCKED,
];

impl Named for PositionState {
    ghost name_of = { state_name };

    fn name(self) -> &'static str {
        match self {
            PositionState::LOCKING => "LOCKING",
            PositionState::LOCKED => "LOCKED",
            PositionState::PREUNLOCKING => "PREUNLOCKING",
            PositionState::UNLOCKING => "UNLOCKING",
            PositionState::UNLOCKED => "UNLOCKED",
        }
    }
}

// The state of a name.
pub fn state_of(name: &[u8]) -> Option<PositionState>
    ensures { result ≡ state_of name.now }
{
    with_name(&STATES, name)
}
