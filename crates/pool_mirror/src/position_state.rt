// The state of a position.
ghost use Rattle.std.specs.Prelude.{◌≡◌};
ghost use Rattle.positions.specs.State.{state_call};
ghost use Rattle.pool_mirror.specs.Answers.{number_of, state_answer};

use positions::list::position_state;
use types::Epoch;

// One position of nine words, in an epoch; no pool is read. The answer: the number of its state, the one that a remove takes for it.
#[unsafe(no_mangle)]
pub extern "C" fn pool_mirror_position_state(
    epoch: u64,
    position: &[u64],
    unlocking_duration: u64,
    answer: &mut [u64; 1],
) -> u64
    ensures value { result ≡ number_of (state_call position.now epoch unlocking_duration) }
    ensures answer_after { answer.new ≡ state_answer answer.old (state_call position.now epoch unlocking_duration) }
{
    match position_state(position, Epoch(epoch), unlocking_duration) {
        Err(refusal) => refusal.into(),
        Ok(state) => {
            *answer = [state.into()];
            0
        }
    }
}
