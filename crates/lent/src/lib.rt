// The calls with lent records: a payment over a lent list of position records, and payment and slash with the staker's record lent by `&mut`.
// They meet the definitions of the calls over words, at the words of the records, and take the pool's words with P and E as those calls do.
#![tactic(auto)]

pub mod payment;
mod records;
pub mod slash;
