// Payments over lists of records that the table does not have: accepted ones, and those that 4 and 13 turn back.
ghost use Rattle.std.specs.Prelude.{◌≤◌};

use crate::calls::Row;
use crate::given::{ACCOUNT, OLD, PUBLISHER, STAKE_ACCOUNT, THIRD, claim_since, paying, position};
use std::io::Stdout;

// Epoch 8 is paid, and the publisher has no account.
fn list<const N: usize>(to: Stdout, name: &str, positions: [[u64; 9]; N])
    requires { N ≤ 257 }
{
    Row::new(to, name, paying()).lent_payment(&positions, &claim_since(8, ACCOUNT, None))
}

// Epoch 8 pays 5,000 to each 1,000,000: 1,000 of it to the publisher.
pub fn short(to: Stdout) {
    list(to, "list, no record", []);
    list(to, "list, one record", [position(2, 1_000_000)]);
    let other = [2, 1_000_000, 0, 0, 0, THIRD.0, 0, 0, 0];
    list(to, "list, another publisher", [other])
}

// Positions of 1,000.
pub fn long(to: Stdout) {
    list(to, "list, 256 records", [position(2, 1_000); 256]);
    list(to, "list, 257 records", [position(2, 1_000); 257])
}

// The first record is empty, so that its flag is not read, and the second is voting.
pub fn kinds(to: Stdout) {
    let empty = [0, 1_000_000, 0, 7, 0, PUBLISHER.0, 0, 0, 0];
    let positions = [empty, position(1, 1_000_000), position(2, 1_000_000)];
    list(
        to,
        "list, one empty, one voting, one in this publisher",
        positions,
    )
}

// 4 and 13. All records are looked at for 4 before one's end of unlocking is 13.
pub fn refused(to: Stdout) {
    let flag = [2, 200, 0, 2, 0, PUBLISHER.0, 0, 0, 0];
    list(to, "list, start flag 2", [flag]);
    let unfit = [2, 200, 0, 1, u64::MAX, PUBLISHER.0, 0, 0, 0];
    list(to, "list, end of unlocking past 64 bits", [unfit]);
    let kind = [3, 0, 0, 0, 0, 0, 0, 0, 0];
    list(
        to,
        "list, end of unlocking past 64 bits, then kind 3",
        [unfit, kind],
    )
}

// The publisher has an account, to which its part goes; then that account is the one that is paid.
pub fn accounts(to: Stdout) {
    let mut pool = paying();
    pool[STAKE_ACCOUNT] = OLD.0;
    let positions = [position(2, 1_000_000)];
    let other = claim_since(8, ACCOUNT, Some(OLD));
    Row::new(to, "list, with a publisher account", pool).lent_payment(&positions, &other);
    let own = claim_since(8, OLD, Some(OLD));
    Row::new(to, "list, of the publisher's own account", pool).lent_payment(&positions, &own)
}

// Three epochs are paid. The second list's record is LOCKING in the first of them and UNLOCKING in the last.
pub fn epochs(to: Stdout) {
    let claim = claim_since(6, ACCOUNT, None);
    let locked = position(2, 1_000_000);
    Row::new(to, "list, epochs 6 to 8", paying()).lent_payment(&[locked], &claim);
    let unlocking = [2, 1_000_000, 7, 1, 8, PUBLISHER.0, 0, 0, 0];
    Row::new(
        to,
        "list, epochs 6 to 8, active from 7, unlocking from 8",
        paying(),
    )
    .lent_payment(&[unlocking], &claim)
}
