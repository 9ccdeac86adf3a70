// Item 8: the walk of one position over the newest events.
#![tactic(auto)]

ghost use Rattle.std.specs.Prelude.{◌≡◌, true, ◌+◌, ◌≤◌, ◌<◌};
ghost use Rattle.types.specs.Base.{word};
ghost use Rattle.event_walk.specs.Walked.{no_amounts, epochs_of, sums_fit, Walked};

use crate::newest::Newest;
use crate::span::Span;
use image::MAX_EVENTS;

pub mod newest;
pub mod span;

// The Rust's event_amounts, one for each ring slot in the order in which walks come to them, and how many events have been read.
// There is no heap: the amounts stand in an array with room for the largest ring.
#[derive(Clone, Copy, Debug, PartialEq, Eq)]
pub struct EventAmounts {
    pub amounts: [u64; MAX_EVENTS],
    pub reads: usize,
}

impl EventAmounts {
    // No walk yet.
    pub fn new() -> EventAmounts
        ensures { result ≡ no_amounts }
    {
        EventAmounts {
            amounts: [0; MAX_EVENTS],
            reads: 0,
        }
    }

    // Whether each amount has room for what one position's walk adds to it. It is seldom asked, and stands apart from the loop over the positions.
    #[inline(never)]
    #[tactic(auto, using(crate::proofs::AmountLaws::rooms))]
    pub fn has_room(&self, newest: &Newest, span: Span) -> bool
        requires { span.first ≤ span.last }
        ensures { result ≡ sums_fit (epochs_of newest.now) span self.now.amounts }
    {
        let epochs = newest.epochs();
        for (k, epoch) in epochs.iter().enumerate() {
            if self.amounts[k].checked_add(span.units_in(*epoch)).is_none() {
                return false;
            }
        }
        true
    }

    // One position's walk, whether it is words or a record: its span adds to the amount of each event met, and the events that it reads to the count.
    // The array stays where it is: handed on by value from walk to walk, tried, it is copied twice for each walk, and eight walks in a row, with
    // two copies for all of them, take up to 2.5 times as long (docs/SPEED.md). By index: over `iter_mut().zip(epochs)` an invariant has no
    // name for the sums so far.
    #[tactic(auto, using(crate::proofs::AmountLaws::sums))]
    pub fn walk(&mut self, newest: &Newest, span: Span)
        requires order { span.first ≤ span.last }
        requires room { sums_fit (epochs_of newest.now) span self.old.amounts ≡ true }
        requires reads { self.old.reads + newest.now.reads < word }
        ensures { Walked newest.now span self.old self.new }
    {
        let epochs = newest.epochs();
        for (k, epoch) in epochs.iter().enumerate() {
            self.amounts[k] += span.units_in(*epoch);
        }
        self.reads += newest.reads;
    }
}
