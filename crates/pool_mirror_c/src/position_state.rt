// The state of a position.
ghost use Rattle.std.specs.Prelude.{◌≡◌};
ghost use Rattle.positions.specs.State.{state_call};
ghost use Rattle.pool_mirror.specs.Answers.{number_of, state_answer};

// One position of nine words, in an epoch; no pool is read. The answer: the number of its state.
#[unsafe(no_mangle)]
pub extern "C" fn pool_mirror_position_state(
    epoch: u64,
    position: &[u64],
    unlocking_duration: u64,
    answer: &mut [u64; 1],
) -> u64
    ensures value { result ≡ number_of (state_call position.now epoch unlocking_duration) }
    ensures answer_after { answer.new ≡ state_answer answer.old (state_call position.now epoch unlocking_duration) }
{
    pool_mirror::position_state::pool_mirror_position_state(
        epoch,
        position,
        unlocking_duration,
        answer,
    )
}
