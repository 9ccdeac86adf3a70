// The seats: keys, sides and fees by name, and a publisher's seat.
#![tactic(auto, unfolding(crate::specs::Layout::read))]

ghost use Rattle.std.specs.Prelude.{◌≡◌, ◌+◌, ◌≤◌, ◌<◌, length, IfSome};
ghost use Rattle.std.specs.Option.{unwrap_or};
ghost use Rattle.types.specs.Base.{outcome_of};
ghost use Rattle.positions.specs.Positions.{key_from};
ghost use Rattle.image.specs.Layout.{total_delegation, delegation_fees, seat, addr};
ghost use Rattle.image.specs.Seats.{publisher_at, stake_account_at, side_at, seats_of, first_seat, publisher_index_of, keyed, with_publisher, with_side};
ghost use Rattle.image.specs.Changes.{self_side, whose, side_named};
ghost use Rattle.image.specs.Pool.{words_of, words_in, Becomes};

use crate::num_events_at;
use crate::pool_data::{PoolData, PoolDataMut};
use delegation::DelegationState;
use positions::Key;
use types::Amount;
use types::refusals::Refusal;

// The sides of a seat, document 01's self side and other side: stake of the publisher's own account, and everybody else's.
#[derive(Clone, Copy, Debug, PartialEq, Eq)]
pub enum SeatSide {
    Own,
    Other,
}

// Where a side of seat s stands: its total, and its change behind it. It takes P alone, since a pool that is read and one that is written ask it.
fn side_place(p: usize, s: usize, side: SeatSide) -> usize
    requires { (p ≤ 1024) × (s < p) }
    ensures { result ≡ addr p 1 (seat s (total_delegation (side_named side))) }
{
    let sides = match side {
        SeatSide::Own => 2 + 6 * p,
        SeatSide::Other => 2 + 4 * p,
    };
    sides + s * 2
}

// A key's four words from place `at` on. A copy of a slice would need them as an array first, which lists the four words as well.
pub(crate) fn write_key(words: &mut [u64], at: usize, key: Key)
    requires { at + 4 ≤ length words.old }
    ensures { words.new ≡ keyed words.old at key }
{
    words[at] = key.0;
    words[at + 1] = key.1;
    words[at + 2] = key.2;
    words[at + 3] = key.3;
}

impl PoolData<'_> {
    // The key whose four words stand from place `at` on. Tried by `Key::from` of the `first_chunk` there: an add at P 1,024 then took 8,291
    // instructions for 6,236, where no call may take more than 1.05.
    fn key_at(self, at: usize) -> Key
        requires { at + 4 ≤ length self.words.now }
        ensures { result ≡ key_from self.entry.words.now at }
    {
        Key(
            self.words[at],
            self.words[at + 1],
            self.words[at + 2],
            self.words[at + 3],
        )
    }

    // The publisher's key at seat s.
    pub fn publisher(self, s: usize) -> Key
        requires { s < self.p }
        ensures { result ≡ publisher_at (words_of self.entry) s }
    {
        self.key_at(2 + s * 4)
    }

    // The publisher's stake account at seat s.
    pub fn publisher_stake_account(self, s: usize) -> Key
        requires { s < self.p }
        ensures { result ≡ stake_account_at (words_of self.entry) s }
    {
        self.key_at(2 + 8 * self.p + s * 4)
    }

    // The side of seat s that an account's stake stands on.
    pub fn account_side(self, s: usize, account: Key) -> SeatSide
        requires { s < self.p }
        ensures { side_named result ≡ whose (self_side (words_of self.entry) s account) }
    {
        if self.is_self_side(s, account) {
            SeatSide::Own
        } else {
            SeatSide::Other
        }
    }

    // One side of seat s.
    pub fn side(self, s: usize, side: SeatSide) -> DelegationState
        requires { s < self.p }
        ensures { result ≡ side_at (words_of self.entry) s (side_named side) }
    {
        let at = side_place(self.p, s, side);
        DelegationState {
            total_delegation: Amount(self.words[at]),
            delta_delegation: self.words[at + 1],
        }
    }

    // The fee of seat s.
    pub fn delegation_fee(self, s: usize) -> u64
        requires { s < self.p }
        ensures { result ≡ words_of self.entry (seat s delegation_fees) }
    {
        self.words[num_events_at(self.p, self.e) + 1 + self.p + s]
    }

    // The first of all seats that has this key.
    fn first_seat(self, key: Key) -> Option<usize>
        ensures first { unwrap_or result self.entry.p ≡ first_seat self.entry.p (words_of self.entry) key }
        ensures found { IfSome result (λ s. s < self.entry.p) }
    {
        (0..self.p).find(|&s| self.publisher(s) == key)
    }

    // Seats count up to the first zero key.
    #[tactic(auto, unfolding(crate::specs::Seats::seats_of, crate::specs::Seats::first_seat, crate::specs::Seats::empty_seat))]
    pub fn seats(self) -> usize
        ensures { result ≡ seats_of self.entry.p (words_of self.entry) }
    {
        self.first_seat(Key::default()).unwrap_or(self.p)
    }

    // A publisher's seat.
    #[tactic(auto, unfolding(crate::specs::Seats::publisher_index_of, positions::specs::Key::same_key))]
    pub fn get_publisher_index(self, key: Key) -> Result<usize, Refusal>
        ensures { outcome_of result ≡ publisher_index_of self.entry.p (words_of self.entry) key }
    {
        if key == Key::default() {
            return Err(Refusal::InvalidPublisher);
        }
        self.first_seat(key).ok_or(Refusal::PublisherNotFound)
    }
}

impl PoolDataMut<'_> {
    // Seat s gets a publisher's key.
    #[tactic(auto, using(crate::proofs::WriteLaws::key_written))]
    pub fn set_publisher(&mut self, s: usize, key: Key)
        requires { s < self.old.p }
        ensures { Becomes self.old self.new (with_publisher (words_in self.old) s key) }
    {
        write_key(&mut self.words[..], 2 + s * 4, key);
    }

    // One side of seat s becomes this one.
    #[tactic(auto, using(crate::proofs::WriteLaws::side_written))]
    pub fn set_side(&mut self, s: usize, side: SeatSide, becomes: DelegationState)
        requires { s < self.old.p }
        ensures { Becomes self.old self.new (with_side (words_in self.old) s (side_named side) becomes) }
    {
        let at = side_place(self.p, s, side);
        self.words[at] = becomes.total_delegation.0;
        self.words[at + 1] = becomes.delta_delegation;
    }
}
