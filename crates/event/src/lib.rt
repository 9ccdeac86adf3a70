// Eligible amounts and ratios, the adjustment of y, and the reward of one event.
#![tactic(auto)]

ghost use Rattle.std.specs.Prelude.{◌≡◌, ◌*◌, ◌/◌, ◌<◌};
ghost use Rattle.types.specs.Wide.{fit_of};

use types::mul_div::mul_div;

pub mod adjust;
pub mod eligible;
pub mod event;

// The floor of a product over a divisor, where it is a word.
#[tactic(auto, using(types::proofs::MulDivLaws::fits_says, types::proofs::MulDivLaws::floor_lt, types::proofs::MulDivLaws::past_floor), unfolding(types::specs::Wide::fit_of))]
fn quotient(a: u64, b: u64, d: u64) -> Option<u64>
    requires { 0 < d }
    ensures { result ≡ fit_of (a * b / d) }
{
    Some(mul_div(a, b, d)?.quotient)
}
