// What the caps cover of the stake: sums over the seats, and each seat's ratios, before and after the roll.
ghost use Rattle.std.specs.Prelude.{◌≡◌, ◌+◌, ◌-◌, ◌*◌, ◌<◌, ◌≤◌, length, slice_index, IfOk, if◌then◌else◌};
ghost use Rattle.types.specs.Base.{outcome_of, outcome_by};
ghost use Rattle.types.specs.Wide.{wide_of, fit_of};
ghost use Rattle.image.specs.Pool.{words_of};
ghost use Rattle.advance_plan.specs.Stake.{seat_eligible, seat_epochs, shares_of, Tabled, sums_of, sums_as};

use crate::table::SeatTable;
use event::eligible::EligibleDelegationData;
use image::pool_data::PoolData;
use image::seats::SeatSide;
use types::refusals::Refusal;
use types::wide::Wide;
use types::{Amount, Ratio};

// Both sides' eligible amounts together, and each side's ratio.
#[derive(Clone, Copy, Debug, PartialEq, Eq)]
pub struct SeatEligible {
    pub total_eligible_delegation: Amount,
    pub self_reward_ratio: Ratio,
    pub other_reward_ratio: Ratio,
}

// A seat in the first passed epoch, with the totals as they stand, and in a later one, with the totals rolled.
#[derive(Clone, Copy, Debug, PartialEq, Eq)]
pub struct SeatEpochs {
    pub first: SeatEligible,
    pub later: SeatEligible,
}

// The sums of eligible amounts over the seats, in the first passed epoch and in a later one. Beside `SeatEpochs`, and not one type of both: each has
// its name in the definitions.
#[derive(Clone, Copy, Debug, PartialEq, Eq)]
pub struct EligibleSums {
    pub first: Wide,
    pub later: Wide,
}

impl SeatEligible {
    // The seat's words in an event: its self ratio, other ratio and fee.
    fn shares(self, fee: u64) -> [u64; 3]
        ensures { result ≡ shares_of self fee }
    {
        [self.self_reward_ratio.0, self.other_reward_ratio.0, fee]
    }
}

#[tactic(auto, using(crate::proofs::StakeLaws::eligibles))]
fn seat_eligible(self_total: Amount, other_total: Amount, cap: Amount) -> SeatEligible
    ensures { result ≡ seat_eligible cap.0 self_total.0 other_total.0 }
{
    let data = EligibleDelegationData::from_delegation_data(self_total, other_total, cap);
    let both = data.self_eligible_delegation.0 + data.other_eligible_delegation.0;
    SeatEligible {
        total_eligible_delegation: Amount(both),
        self_reward_ratio: data.reward_ratios.self_reward_ratio,
        other_reward_ratio: data.reward_ratios.other_reward_ratio,
    }
}

// 13 where a side does not roll. Put where it is asked, for each seat, since its answer is six words (`PublisherCaps::find` has the figure).
#[inline(always)]
#[tactic(auto, using(crate::proofs::StakeLaws::seats_roll))]
fn eligible_at_seat(pool: PoolData<'_>, s: usize, cap: Amount) -> Result<SeatEpochs, Refusal>
    requires { s < pool.p }
    ensures { outcome_of result ≡ seat_epochs (words_of pool.entry) cap.0 s }
{
    let self_side = pool.side(s, SeatSide::Own);
    let other_side = pool.side(s, SeatSide::Other);
    let self_next = self_side.roll()?;
    let other_next = other_side.roll()?;
    Ok(SeatEpochs {
        first: seat_eligible(self_side.total_delegation, other_side.total_delegation, cap),
        later: seat_eligible(self_next.total_delegation, other_next.total_delegation, cap),
    })
}

impl EligibleSums {
    // The sum over the passed epochs, where it is a word: T, or with every epoch at the rolled totals, the
    // definitions' two readings.
    pub fn over(self, passed: u64, every_rolled: bool) -> Option<u64>
        requires { 1 ≤ passed }
        ensures { result ≡ fit_of ((if every_rolled then wide_of self.later else wide_of self.first) + (passed - 1) * wide_of self.later) }
    {
        let first = if every_rolled { self.later } else { self.first };
        first.plus_times(passed - 1, self.later)
    }
}

// The first seats' ratios and fees go to the table, under the caps that it has. 13 where a side does not roll. `seats`
// is the pool's own count, read once by the caller.
pub fn sum_eligible<const P: usize>(
    pool: PoolData<'_>,
    seats: usize,
    table: &mut SeatTable<P>,
) -> Result<EligibleSums, Refusal>
    requires seats { seats ≤ pool.p }
    requires room { pool.p ≤ P }
    ensures sums { outcome_by sums_as result ≡ sums_of (words_of pool.entry) (slice_index table.old.caps) seats }
    ensures shares { IfOk result (λ sums. Tabled (words_of pool.entry) (slice_index table.old.caps) seats table.new) }
    ensures caps { table.new.caps ≡ table.old.caps }
{
    let mut first_sum = Wide::default();
    let mut later_sum = Wide::default();
    for s in 0..seats {
        let seat = eligible_at_seat(pool, s, Amount(table.caps[s]))?;
        first_sum = first_sum.plus(seat.first.total_eligible_delegation.0);
        later_sum = later_sum.plus(seat.later.total_eligible_delegation.0);
        let fee = pool.delegation_fee(s);
        table.first_shares[s] = seat.first.shares(fee);
        table.later_shares[s] = seat.later.shares(fee);
    }
    Ok(EligibleSums {
        first: first_sum,
        later: later_sum,
    })
}
