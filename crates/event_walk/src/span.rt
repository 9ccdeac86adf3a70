// The epochs in which a position adds to events.
ghost use Rattle.std.specs.Prelude.{◌≡◌, ◌≤◌};
ghost use Rattle.event_walk.specs.Span.{units_in, SpanOf, InOrder};
ghost use Rattle.event_walk.specs.Walked.{epochs_of};

use crate::newest::Newest;
use positions::position::Position;

// The same amount in each epoch from the first to the last. The default adds nothing.
#[derive(Clone, Copy, Debug, Default, PartialEq, Eq)]
pub struct Span {
    pub amount: u64,
    pub first: u64,
    pub last: u64,
}

impl Span {
    // What is added in an epoch, by one comparison of how far it is behind the first: one in front of that is, modulo 2^64, farther behind than the last.
    #[tactic(auto, using(crate::proofs::SpanLaws::units))]
    pub fn units_in(self, epoch: u64) -> u64
        requires { self.first ≤ self.last }
        ensures { result ≡ units_in self epoch }
    {
        if epoch.wrapping_sub(self.first) <= self.last - self.first {
            self.amount
        } else {
            0
        }
    }
}

// What a position adds to the newest events, or that its state does not fit in one of
// them: from the activation to the epoch in front of the start, if there is one.
#[tactic(auto, using(crate::proofs::SpanLaws::spans))]
pub fn span_of(newest: &Newest, position: Position, unlocking_duration: u64) -> Option<Span>
    ensures draws { SpanOf (epochs_of newest.now) position unlocking_duration result }
    ensures order { InOrder result }
{
    let amount = position.amount.0;
    let first = position.activation_epoch.0;
    if position.start_flag != 1 {
        return Some(Span {
            amount,
            first,
            last: u64::MAX,
        });
    }
    let start = position.unlocking_start.0;
    if start.checked_add(unlocking_duration).is_none() {
        let epochs = newest.epochs();
        if epochs.iter().any(|epoch| first <= *epoch) {
            return None;
        }
        return Some(Span::default());
    }
    if start <= first {
        return Some(Span::default());
    }
    Some(Span {
        amount,
        first,
        last: start - 1,
    })
}
