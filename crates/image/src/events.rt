// The events in the slots of the ring.
#![tactic(auto, unfolding(crate::specs::Layout::read))]

ghost use Rattle.std.specs.Prelude.{◌≡◌, ◌<◌};
ghost use Rattle.image.specs.Layout.{event_epoch, event_y, slot};
ghost use Rattle.image.specs.Seats.{shares_at};
ghost use Rattle.image.specs.Pool.{words_of};

use crate::event_at;
use crate::pool_data::PoolData;

impl PoolData<'_> {
    // The epoch of the event in slot t.
    pub fn event_epoch(self, t: usize) -> u64
        requires { t < self.e }
        ensures { result ≡ words_of self.entry (slot t event_epoch) }
    {
        self.words[event_at(self.p, t)]
    }

    // Its y.
    pub fn event_y(self, t: usize) -> u64
        requires { t < self.e }
        ensures { result ≡ words_of self.entry (slot t event_y) }
    {
        self.words[event_at(self.p, t) + 1]
    }

    // Self ratio, other ratio and fee of seat s in it.
    pub fn event_shares(self, t: usize, s: usize) -> [u64; 3]
        requires { (t < self.e) × (s < self.p) }
        ensures { result ≡ shares_at (words_of self.entry) t s }
    {
        let at = event_at(self.p, t) + 9 + s * 3;
        [self.words[at], self.words[at + 1], self.words[at + 2]]
    }
}
