// The three kinds of number in the pool's accounting, each over a word.
#![tactic(auto)]

// A share in millionths, the Rust's frac64.
#[derive(Clone, Copy, Debug, Default, PartialEq, Eq)]
pub struct Ratio(pub u64);

// An amount in smallest token units.
#[derive(Clone, Copy, Debug, Default, PartialEq, Eq)]
pub struct Amount(pub u64);

// An epoch number.
#[derive(Clone, Copy, Debug, Default, PartialEq, Eq)]
pub struct Epoch(pub u64);

// One whole in millionths.
pub const FRAC_64_MULTIPLIER: u64 = 1_000_000;

// 2^63: a signed word holds the numbers below this, and a word from here on stands for itself less 2^64.
pub const SIGNED_LIMIT: u64 = 0x8000_0000_0000_0000;

// 2^32: a word is two digits in this base.
const BASE: u64 = 0x1_0000_0000;

pub mod bool_array;
pub mod mul_div;
pub mod refusals;
pub mod wide;
