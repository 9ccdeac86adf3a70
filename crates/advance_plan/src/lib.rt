// What an advance or a forecast works out before anything is written.
#![tactic(auto)]

pub mod due;
pub mod plan;
pub mod rows;
pub mod stake;
pub mod table;

// What either is given besides the pool and the caps message.
#[derive(Clone, Copy, Debug, PartialEq, Eq)]
pub struct Given {
    pub current_epoch: u64,
    pub y: u64,
    pub pool_reward_custody_balance: u64,
    // EPOCH_DURATION, in seconds.
    pub epoch_duration: u64,
    // The caps message's flag: a word of the call's input, of which any is taken, and 1 alone says that it was verified.
    pub is_verified: u64,
}
