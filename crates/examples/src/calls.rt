// The public calls, each with the line for its answer. The image is compared with its copy from before the call.
ghost use Rattle.std.specs.Prelude.{◌≤◌};

use crate::given::{E, Image, P};
use crate::tell;
use advance_plan::Given;
use integrity_pool::changes;
use integrity_pool::payment::{Claim, advance_delegation_record};
use integrity_pool::slash::{Slashing, create_slash_event};
use integrity_pool::stake_account::{StakeAccounts, set_publisher_stake_account};
use pool::changes::Delegation;
use positions::Key;
use positions::position::PositionState;
use std::io::Stdout;
use types::refusals::Refusal;
use types::{Amount, Epoch, Ratio};

// An example: its name, and the image that its calls are made on, as one of p seats. It holds standard output, which has no equality, and P
// beside the image, since it is no image of p seats that some examples are of.
#[derive(Clone, Copy)]
pub struct Row<'a> {
    pub to: Stdout,
    pub name: &'a str,
    pub p: usize,
    pub pool: Image,
}

impl<'a> Row<'a> {
    pub fn new(to: Stdout, name: &'a str, pool: Image) -> Row<'a> {
        Row {
            to,
            name,
            p: P,
            pool,
        }
    }

    // A call's line: its refusal's number or 0, and whether it left the image as it was.
    fn line<T: Drop, F: FnOnce(&mut [u64]) -> Result<T, Refusal>>(&self, call_name: &str, call: F)
        requires { F.IsAlwaysCallable call }
    {
        let name = self.name;
        let mut pool = self.pool;
        let answer = call(&mut pool[..]);
        let number = tell::number_of(&answer);
        let change = tell::change(&self.pool, &pool);
        let _ = println!(self.to; "{name}: {call_name} {number}, {change}");
    }

    pub fn fresh(&self, epoch: u64) {
        self.line(
            "fresh",
            |pool| integrity_pool::fresh(pool, self.p, E, epoch),
        )
    }

    // An advance and a forecast, for which the image is lent for reading alone.
    pub fn both(&self, m: &[u8], given: Given) {
        self.line(
            "advance",
            |pool| integrity_pool::advance(pool, self.p, E, m, given),
        );
        self.line(
            "forecast",
            |pool| integrity_pool::forecast(pool, self.p, E, m, given),
        )
    }

    // With its lent form.
    pub fn payment<const N: usize>(&self, positions: &[[u64; 9]; N], claim: &Claim)
        requires { N ≤ 257 }
    {
        let words = positions.as_flattened();
        self.line(
            "payment",
            |pool| advance_delegation_record(pool, self.p, E, words, claim),
        );
        self.lent_payment(positions, claim)
    }

    pub fn add(&self, whose: &Delegation) {
        self.line(
            "add",
            |pool| changes::add_delegation(pool, self.p, E, whose, Amount(1)),
        )
    }

    pub fn remove(&self, whose: &Delegation, state: PositionState) {
        self.line(
            "remove",
            |pool| changes::remove_delegation(pool, self.p, E, whose, Amount(1), state),
        )
    }

    pub fn fee(&self, fee: Ratio) {
        self.line(
            "fee",
            |pool| changes::update_delegation_fee(pool, self.p, E, fee),
        )
    }

    pub fn create(&self, publisher: Key, index: u64) {
        self.line(
            "create slash event",
            |pool| create_slash_event(pool, self.p, E, publisher, index, Epoch(9)),
        )
    }

    // With its lent form.
    pub fn slash(&self, slashing: &Slashing) {
        self.line(
            "slash",
            |pool| integrity_pool::slash::slash(pool, self.p, E, slashing),
        );
        self.lent_slash(slashing)
    }

    pub fn account(&self, old: &[u64], new: &[u64], accounts: &StakeAccounts) {
        self.line(
            "stake account",
            |pool| set_publisher_stake_account(pool, self.p, E, old, new, accounts),
        )
    }
}
