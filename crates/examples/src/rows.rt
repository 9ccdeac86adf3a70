// Document 01's table 'Turned back', row by row; that of 14 is none any more (document 02, [8]).
use crate::calls::Row;
use crate::given::{
    ACCOUNT, NEW, OLD, OWNER, PUBLISHER, RIGHT, THIRD, ZERO, accounts, claim, delegation, earning,
    message, position, seated, slashing, staked, with_account,
};
use advance_plan::Given;
use positions::Key;
use positions::position::PositionState;
use std::io::Stdout;
use types::Ratio;

impl Row<'_> {
    // The calls that ask for a publisher and the current epoch.
    fn in_epoch(&self, publisher: Key, now: u64) {
        let whose = delegation(publisher, ACCOUNT, now);
        self.payment(&[], &claim(publisher, None, 0, now));
        self.add(&whose);
        self.remove(&whose, PositionState::LOCKED);
        self.slash(&slashing(whose, now, 0, 0, now))
    }

    // The calls that look a publisher up.
    fn look_up(&self, publisher: Key) {
        self.in_epoch(publisher, 9);
        self.create(publisher, 0);
        self.account(&[], &[], &accounts(publisher, publisher, None, None))
    }

    // An advance and a forecast on a message of epoch 12's first second.
    fn in_time(&self, given: Given) {
        self.both(&message(7_257_600), given)
    }
}

// 1, by every call.
pub fn image(to: Stdout) {
    let row = Row {
        p: 0,
        ..Row::new(to, "refusal 1, P 0", seated())
    };
    row.fresh(10);
    row.in_time(RIGHT);
    row.look_up(PUBLISHER);
    row.fee(Ratio(0))
}

// 2 and 3.
pub fn inputs(to: Stdout) {
    let pool = seated();
    Row::new(to, "refusal 2, fresh 0", pool).fresh(0);
    let none = Given {
        epoch_duration: 0,
        ..RIGHT
    };
    Row::new(to, "refusal 2, epoch seconds 0", pool).in_time(none);
    Row::new(to, "refusal 3, 10 bytes", pool).both(&[0; 10], RIGHT)
}

// 4, by a payment, and by the old and the new account of a change.
pub fn position_lists(to: Stdout) {
    let pool = seated();
    let kind_3 = position(3, 0);
    Row::new(to, "refusal 4, kind 3", pool).payment(&[kind_3], &claim(PUBLISHER, None, 0, 9));
    let old = accounts(PUBLISHER, PUBLISHER, Some(NEW), None);
    Row::new(to, "refusal 4, kind 3 in the old list", pool).account(&kind_3, &[], &old);
    let new = accounts(PUBLISHER, PUBLISHER, None, Some(NEW));
    Row::new(to, "refusal 4, kind 3 in the new list", pool).account(&[], &kind_3, &new)
}

// 5 to 9.
pub fn advances(to: Stdout) {
    let pool = seated();
    let y = Given { y: 10_001, ..RIGHT };
    Row::new(to, "refusal 5, 10,001", pool).in_time(y);
    Row::new(to, "refusal 6, 1,000,001", pool).fee(Ratio(1_000_001));
    let flag = Given {
        is_verified: 0,
        ..RIGHT
    };
    Row::new(to, "refusal 7, flag 0", pool).in_time(flag);
    let at_9 = Given {
        current_epoch: 9,
        ..RIGHT
    };
    Row::new(to, "refusal 8, last 9, now 9", pool).in_time(at_9);
    let at_15 = Given {
        current_epoch: 15,
        ..RIGHT
    };
    Row::new(to, "refusal 9, now 15, time 9,071,999", pool).both(&message(9_071_999), at_15)
}

// 10, 11 and 12.
pub fn publishers(to: Stdout) {
    let pool = seated();
    Row::new(to, "refusal 10, zero key", pool).look_up(ZERO);
    Row::new(to, "refusal 11, unseated key", pool).look_up(THIRD);
    Row::new(to, "refusal 12, last 9, now 10", pool).in_epoch(PUBLISHER, 10)
}

// 13, and 14's row, which is accepted.
pub fn sums(to: Stdout) {
    Row::new(to, "refusal 13, total 5, change -6", staked(5, -6)).in_time(RIGHT);
    let short = Given {
        pool_reward_custody_balance: 6,
        ..RIGHT
    };
    Row::new(to, "custody drained, 7 over 6", seated()).in_time(short)
}

// 15 to 18.
pub fn stakes(to: Stdout) {
    let whose = delegation(PUBLISHER, ACCOUNT, 9);
    Row::new(to, "refusal 15, UNLOCKING", seated()).remove(&whose, PositionState::UNLOCKING);
    let none = claim(PUBLISHER, None, 0, 9);
    Row::new(to, "refusal 16, 1 of 0", earning()).payment(&[position(2, 200)], &none);
    let other = claim(PUBLISHER, Some(NEW), 1, 9);
    Row::new(to, "refusal 17, other key", with_account()).payment(&[], &other);
    let absent = claim(PUBLISHER, Some(OLD), 0, 9);
    Row::new(to, "refusal 18, flag absent", with_account()).payment(&[], &absent)
}

// 19 to 22.
pub fn slashes(to: Stdout) {
    let pool = seated();
    let at_9 = delegation(PUBLISHER, ACCOUNT, 9);
    let outdated = slashing(at_9, 8, 0, 0, 9);
    Row::new(to, "refusal 19, record 8, now 9", pool).slash(&outdated);
    let passed = slashing(at_9, 9, 2, 1, 9);
    Row::new(to, "refusal 20, index 1, next 2", pool).slash(&passed);
    Row::new(to, "refusal 21, index 1, count 0", pool).create(PUBLISHER, 1);
    let ahead = slashing(delegation(PUBLISHER, ACCOUNT, 8), 8, 0, 0, 9);
    Row::new(to, "refusal 22, event 9, now 8", pool).slash(&ahead)
}

// 24, 25 and 26: the publisher has an account.
fn later_accounts(to: Stdout) {
    let pool = with_account();
    let row = Row::new(to, "refusal 24, old holds one in this publisher", pool);
    let by_owner = accounts(PUBLISHER, OWNER, Some(OLD), None);
    row.account(&position(2, 200), &[], &by_owner);
    let by_other = accounts(PUBLISHER, THIRD, Some(OLD), None);
    Row::new(to, "refusal 25, other signer", pool).account(&[], &[], &by_other);
    let absent = accounts(PUBLISHER, OWNER, None, None);
    Row::new(to, "refusal 26, no old account", pool).account(&[], &[], &absent)
}

// 23 to 27.
pub fn stake_accounts(to: Stdout) {
    let third = accounts(PUBLISHER, THIRD, None, None);
    Row::new(to, "refusal 23, third signer", seated()).account(&[], &[], &third);
    later_accounts(to);
    let to_new = accounts(PUBLISHER, PUBLISHER, None, Some(NEW));
    Row::new(to, "refusal 27, new holds one", seated()).account(&[], &position(2, 200), &to_new)
}
