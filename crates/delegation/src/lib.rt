// One side of a publisher's stake: its total, and the change that takes effect with the next epoch.
#![tactic(auto)]

ghost use Rattle.std.specs.Prelude.{◌≡◌, ◌≤◌, ◌<◌, Option, ℤ, pos, MatchOption};
ghost use Rattle.std.specs.Int.{w64, cast_signed, cast_unsigned};
ghost use Rattle.types.specs.Base.{outcome_of, outcome_by, half, refused, accepted};
ghost use Rattle.types.specs.Refusals.{does_not_fit};
ghost use Rattle.delegation.specs.Side.{raised_of, lowered_of, roll_of, add_of, remove_of, slash_of, side_of};

use positions::position::PositionState;
use types::refusals::Refusal;
use types::{Amount, SIGNED_LIMIT};

#[derive(Clone, Copy, Debug, Default, PartialEq, Eq)]
pub struct DelegationState {
    pub total_delegation: Amount,
    // A signed word: from 2^63 on it stands for itself less 2^64. It is no i64, since the image has words, and a definition speaks of them.
    pub delta_delegation: u64,
}

// A signed word with an amount added or taken off, by what tells the sum.
fn change<F: FnOnce(i64, i64) -> Option<i64>>(
    delta: u64,
    amount: u64,
    sum: F,
) -> Result<u64, Refusal>
    requires { F.IsAlwaysCallable sum }
    ensures large { half ≤ amount → outcome_of result ≡ refused does_not_fit }
    ensures told { amount < half → (s : Option ℤ) × F.post sum (cast_signed w64 delta) (pos amount) s
        × MatchOption s (outcome_of result ≡ refused does_not_fit) (λ z. outcome_of result ≡ accepted (cast_unsigned w64 z)) }
{
    let amount = i64::try_from(amount).map_err(|_| Refusal::DoesNotFit)?;
    let sum = sum(delta.cast_signed(), amount).ok_or(Refusal::DoesNotFit)?;
    Ok(sum.cast_unsigned())
}

// A signed word with an amount added.
#[tactic(auto, unfolding(crate::specs::Side::raised_of))]
fn raise(delta: u64, amount: u64) -> Result<u64, Refusal>
    ensures { outcome_of result ≡ raised_of delta amount }
{
    change(delta, amount, i64::checked_add)
}

// A signed word with an amount taken off.
#[tactic(auto, unfolding(crate::specs::Side::lowered_of))]
fn lower(delta: u64, amount: u64) -> Result<u64, Refusal>
    ensures { outcome_of result ≡ lowered_of delta amount }
{
    change(delta, amount, i64::checked_sub)
}

impl DelegationState {
    // Into the next epoch: total + change, and change 0. The signed sum is the words' sum modulo 2^64, so that no branch depends on the sign.
    // Tried by `checked_add` of i64, whose result is turned back into a word: an advance of 1 epoch with 1,024 rows then took 1.12 of its time,
    // where no call may take more than 1.05.
    #[tactic(auto, unfolding(crate::specs::Side::roll_of, crate::specs::Side::roll_fits, crate::specs::Side::rolled))]
    pub fn roll(self) -> Result<DelegationState, Refusal>
        ensures { outcome_by side_of result ≡ roll_of self.total_delegation.0 self.delta_delegation }
    {
        let total = self.total_delegation.0;
        let sum = total.wrapping_add(self.delta_delegation);
        if SIGNED_LIMIT <= total || SIGNED_LIMIT <= sum {
            return Err(Refusal::DoesNotFit);
        }
        Ok(DelegationState {
            total_delegation: Amount(sum),
            delta_delegation: 0,
        })
    }

    #[tactic(auto, unfolding(crate::specs::Side::add_of))]
    pub fn add(self, amount: Amount) -> Result<DelegationState, Refusal>
        ensures { outcome_by side_of result ≡ add_of self.total_delegation.0 self.delta_delegation amount.0 }
    {
        let delta_delegation = raise(self.delta_delegation, amount.0)?;
        Ok(DelegationState {
            delta_delegation,
            ..self
        })
    }

    // LOCKED and LOCKING subtract, UNLOCKED changes nothing.
    #[tactic(auto, unfolding(crate::specs::Side::remove_of))]
    pub fn remove(
        self,
        amount: Amount,
        position_state: PositionState,
    ) -> Result<DelegationState, Refusal>
        ensures { outcome_by side_of result ≡ remove_of self.total_delegation.0 self.delta_delegation amount.0 position_state }
    {
        if SIGNED_LIMIT <= amount.0 {
            return Err(Refusal::DoesNotFit);
        }
        match position_state {
            PositionState::LOCKED | PositionState::LOCKING => {
                let delta_delegation = lower(self.delta_delegation, amount.0)?;
                Ok(DelegationState {
                    delta_delegation,
                    ..self
                })
            }
            PositionState::UNLOCKED => Ok(self),
            PositionState::PREUNLOCKING | PositionState::UNLOCKING => {
                Err(Refusal::UnexpectedPositionState)
            }
        }
    }

    // Takes locked plus preunlocking off the total, and adds preunlocking to the change.
    #[tactic(auto, unfolding(crate::specs::Side::slash_of))]
    pub fn slash(
        self,
        locked_slashed: Amount,
        preunlocking_slashed: Amount,
    ) -> Result<DelegationState, Refusal>
        ensures { outcome_by side_of result ≡ slash_of self.total_delegation.0 self.delta_delegation locked_slashed.0 preunlocking_slashed.0 }
    {
        let total = self.total_delegation.0;
        let locked = locked_slashed.0;
        let preunlocking = preunlocking_slashed.0;
        let rest = total.checked_sub(locked).ok_or(Refusal::DoesNotFit)?;
        let left = rest.checked_sub(preunlocking).ok_or(Refusal::DoesNotFit)?;
        let delta_delegation = raise(self.delta_delegation, preunlocking)?;
        Ok(DelegationState {
            total_delegation: Amount(left),
            delta_delegation,
        })
    }
}
