// Accounts and states as a caller hands them over.
ghost use Rattle.std.specs.Prelude.{◌≡◌};
ghost use Rattle.pool_mirror.specs.Inputs.{key_or_none, state_of};

use positions::Key;
use positions::position::PositionState;

// An account that may be absent: a flag of 0 says so, and the words are then not looked at.
#[tactic(auto, unfolding(crate::specs::Inputs::key_or_none, crate::specs::Inputs::key_of))]
pub fn key_or_none(has: u64, words: &[u64; 4]) -> Option<Key>
    ensures { result ≡ key_or_none has words.now }
{
    if has == 0 {
        return None;
    }
    Some(Key::from(*words))
}

// The state with this number, by the Rust's order. A number that is no state's counts as UNLOCKING, which a remove always refuses.
#[tactic(auto, unfolding(crate::specs::Inputs::state_of))]
pub fn position_state(n: u64) -> PositionState
    ensures { result ≡ state_of n }
{
    PositionState::try_from(n).unwrap_or(PositionState::UNLOCKING)
}
