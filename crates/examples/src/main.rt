// Runs document 01's examples that are not marked P, and every row of its table 'Turned back', through the public calls at P 2 and E 4, payments
// and slashes in their lent forms too; then such payments over further lists. A line holds what a call answered and wrote; the file stdout holds
// what the document says.
#![tactic(auto)]

mod calls;
mod forms;
mod given;
mod lists;
mod rows;
mod tell;

use calls::Row;
use given::{
    ACCOUNT, E, Image, OTHER_SIDE, P, PUBLISHER, SELF_SIDE, ZERO, delegation, seated, slashing,
    staked,
};
use integrity_pool::slash::{Slashing, slash};
use positions::Key;
use std::io::Stdout;

// The example's slash, of this account.
fn slashing_of(account: Key) -> Slashing {
    slashing(delegation(PUBLISHER, account, 9), 9, 0, 0, 9)
}

// What it leaves.
fn slashed(account: Key) -> Image {
    let mut pool = staked(10, -3);
    let _ = slash(&mut pool, P, E, &slashing_of(account));
    pool
}

// A line for a side's two words.
fn side(to: Stdout, name: &str, which: &str, total: u64, change: u64) {
    let change = change.cast_signed();
    let _ = println!(to; "{name}{which}: total {total}, change {change}");
}

// The account is not the publisher's own; then it is, both keys zero.
fn slash_sides(to: Stdout) {
    let name = "slash 4 locked, 2 preunlocking on total 10, change -3";
    let other = slashed(ACCOUNT);
    side(to, name, "", other[OTHER_SIDE], other[OTHER_SIDE + 1]);
    Row::new(to, name, staked(10, -3)).lent_slash(&slashing_of(ACCOUNT));
    let own = slashed(ZERO);
    side(to, name, ", self side", own[SELF_SIDE], own[SELF_SIDE + 1])
}

// 'Next 2, index 5, event 7.'
fn next_index(to: Stdout, name: &str, now: u64) {
    let before = seated();
    let mut pool = before;
    let slashing = slashing(delegation(PUBLISHER, ACCOUNT, now), now, 2, 5, 7);
    let answer = slash(&mut pool, P, E, &slashing);
    let change = tell::change(&before, &pool);
    match answer {
        Ok(kept) => {
            let _ = println!(to; "{name}: next {}, {change}", kept.next_slash_event_index);
        }
        Err(refusal) => {
            let _ = println!(to; "{name}: refusal {}, {change}", u64::from(refusal));
        }
    }
    Row::new(to, name, before).lent_slash(&slashing)
}

// A line that can't be written is passed over, and the others are made: what is missing is seen by what compares them.
fn main(rt: HostRuntime) {
    let to = rt.stdout();
    slash_sides(to);
    next_index(to, "next 2, index 5, event 7, now 8", 8);
    next_index(to, "next 2, index 5, event 7, now 7", 7);
    rows::image(to);
    rows::inputs(to);
    rows::position_lists(to);
    rows::advances(to);
    rows::publishers(to);
    rows::sums(to);
    rows::stakes(to);
    rows::slashes(to);
    rows::stake_accounts(to);
    lists::short(to);
    lists::long(to);
    lists::kinds(to);
    lists::refused(to);
    lists::accounts(to);
    lists::epochs(to)
}
