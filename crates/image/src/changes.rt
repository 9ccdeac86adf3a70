// Item 9's changes: what they read of a seat besides its sides, and what they write.
#![tactic(auto, unfolding(crate::specs::Layout::read))]

ghost use Rattle.std.specs.Prelude.{◌≡◌, ◌≤◌, ◌<◌, length};
ghost use Rattle.image.specs.Layout.{num_slash_events, seat};
ghost use Rattle.image.specs.Seats.{FilledFrom};
ghost use Rattle.image.specs.Changes.{self_side, with_slash_events, with_stake_account, with_fees};
ghost use Rattle.image.specs.Pool.{words_of, words_in, Becomes};

use crate::pool_data::{PoolData, PoolDataMut};
use crate::seats::write_key;
use crate::{MAX_PUBLISHERS, num_events_at};
use positions::Key;

// The words from place `at` on become this one. As many as a pool of the Rust's own size has fees are filled by themselves: of a number that it
// knows the compiler makes a quarter of the turns.
fn fill_from(words: &mut [u64], at: usize, word: u64)
    requires { at ≤ length words.old }
    ensures { FilledFrom at word words.old words.new }
{
    if words.len() - at == MAX_PUBLISHERS {
        words[at..at + MAX_PUBLISHERS].fill(word);
    } else {
        words[at..].fill(word);
    }
}

impl PoolData<'_> {
    // Whether an account's stake stands on the self side of seat s: it is the publisher's own. A `bool`, since the Rust's flag `is_publisher` of event
    // and pool is given it; what reads or writes a side takes `account_side`.
    #[tactic(auto, unfolding(crate::specs::Changes::self_side, positions::specs::Key::same_key))]
    pub fn is_self_side(self, s: usize, account: Key) -> bool
        requires { s < self.p }
        ensures { result ≡ self_side (words_of self.entry) s account }
    {
        self.publisher_stake_account(s) == account
    }

    // How many slash events the publisher at seat s has.
    pub fn num_slash_events(self, s: usize) -> u64
        requires { s < self.p }
        ensures { result ≡ words_of self.entry (seat s num_slash_events) }
    {
        self.words[num_events_at(self.p, self.e) + 1 + s]
    }
}

impl PoolDataMut<'_> {
    // The publisher at seat s has this stake account.
    #[tactic(auto, using(crate::proofs::ChangeWrites::stake_account_written))]
    pub fn set_publisher_stake_account(&mut self, s: usize, key: Key)
        requires { s < self.old.p }
        ensures { Becomes self.old self.new (with_stake_account (words_in self.old) s key) }
    {
        write_key(&mut self.words[..], 2 + 8 * self.p + s * 4, key);
    }

    // The publisher at seat s has this many slash events.
    #[tactic(auto, using(crate::proofs::ChangeWrites::slash_events_written))]
    pub fn set_num_slash_events(&mut self, s: usize, count: u64)
        requires { s < self.old.p }
        ensures { Becomes self.old self.new (with_slash_events (words_in self.old) s count) }
    {
        let at = num_events_at(self.p, self.e) + 1 + s;
        self.words[at] = count;
    }

    // Every seat gets this fee.
    #[tactic(auto, using(crate::proofs::ChangeWrites::fees_written))]
    pub fn set_delegation_fees(&mut self, fee: u64)
        ensures { Becomes self.old self.new (with_fees (words_in self.old) fee) }
    {
        let at = num_events_at(self.p, self.e) + 1 + self.p;
        fill_from(&mut self.words[..], at, fee);
    }
}
