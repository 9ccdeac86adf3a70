// A stake position and its state in an epoch.
ghost use Rattle.std.specs.Prelude.{◌≡◌, ◌&&◌, ◌||◌, leb, eqb};
ghost use Rattle.types.specs.Base.{outcome_of};
ghost use Rattle.positions.specs.Positions.{position_from};
ghost use Rattle.positions.specs.Key.{same_key};
ghost use Rattle.positions.specs.State.{state_of, state_number, StateNumbered};

use crate::Key;
use types::refusals::Refusal;
use types::{Amount, Epoch};

// The nine words of a position by name. The kind is 0 for an empty position, 1 for voting, 2 for
// a pool; unlocking has a start where the flag is 1. Both are words: a list holds any, refusal 4 is asked of the words, and an
// empty position's flag may be anything, so an enum would need a variant for every number.
#[derive(Clone, Copy, Debug, Default, PartialEq, Eq)]
pub struct Position {
    pub kind: u64,
    pub amount: Amount,
    pub activation_epoch: Epoch,
    pub start_flag: u64,
    pub unlocking_start: Epoch,
    pub publisher: Key,
}

impl From<[u64; 9]> for Position {
    ghost from_gives = { λ words position. position ≡ position_from words 0 };

    fn from(words: [u64; 9]) -> Position {
        let [
            kind,
            amount,
            activation,
            start_flag,
            start,
            key0,
            key1,
            key2,
            key3,
        ] = words;
        Position {
            kind,
            amount: Amount(amount),
            activation_epoch: Epoch(activation),
            start_flag,
            unlocking_start: Epoch(start),
            publisher: Key(key0, key1, key2, key3),
        }
    }
}

#[derive(Clone, Copy, Debug, PartialEq, Eq)]
pub enum PositionState {
    UNLOCKED,
    LOCKING,
    LOCKED,
    PREUNLOCKING,
    UNLOCKING,
}

// A number that is no state's.
#[derive(Clone, Copy, Debug, PartialEq, Eq)]
pub struct UnknownState(pub u64);

// The states by the Rust's order.
impl TryFrom<u64> for PositionState {
    type Error = UnknownState;

    ghost try_from_gives = { StateNumbered };

    fn try_from(number: u64) -> Result<PositionState, UnknownState> {
        match number {
            0 => Ok(PositionState::UNLOCKED),
            1 => Ok(PositionState::LOCKING),
            2 => Ok(PositionState::LOCKED),
            3 => Ok(PositionState::PREUNLOCKING),
            4 => Ok(PositionState::UNLOCKING),
            _ => Err(UnknownState(number)),
        }
    }
}

impl From<PositionState> for u64 {
    ghost from_gives = { λ state number. number ≡ state_number state };

    fn from(state: PositionState) -> u64 {
        state as u64
    }
}

impl Position {
    // Whether it is as it should be. The flag of an empty one is not read.
    pub fn holds(&self) -> bool
        ensures { result ≡ (leb self.now.kind 2 && (eqb self.now.kind 0 || leb self.now.start_flag 1)) }
    {
        self.kind <= 2 && (self.kind == 0 || self.start_flag <= 1)
    }

    // Whether it is one in the publisher. Nothing but its kind and key is looked at.
    #[tactic(auto, unfolding(crate::specs::Key::same_key))]
    pub fn in_publisher(&self, publisher: Key) -> bool
        ensures { result ≡ (eqb self.now.kind 2 && same_key self.now.publisher publisher) }
    {
        self.kind == 2 && self.publisher == publisher
    }

    // The state in an epoch. Whether the end of unlocking fits is asked ahead of the states that
    // have a start, since the Rust works the end out first.
    #[tactic(auto, unfolding(crate::specs::State::state_by))]
    pub fn get_current_position(
        self,
        current_epoch: Epoch,
        unlocking_duration: u64,
    ) -> Result<PositionState, Refusal>
        ensures { outcome_of result ≡ state_of self current_epoch.0 unlocking_duration }
    {
        let epoch = current_epoch.0;
        let start = self.unlocking_start.0;
        if epoch < self.activation_epoch.0 {
            return Ok(PositionState::LOCKING);
        }
        if self.start_flag != 1 {
            return Ok(PositionState::LOCKED);
        }
        let end = start
            .checked_add(unlocking_duration)
            .ok_or(Refusal::DoesNotFit)?;
        if epoch < start {
            Ok(PositionState::PREUNLOCKING)
        } else if epoch < end {
            Ok(PositionState::UNLOCKING)
        } else {
            Ok(PositionState::UNLOCKED)
        }
    }
}
