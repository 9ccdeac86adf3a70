// What the pool does with an image that has been checked.
#![tactic(auto)]

pub mod advance;
pub mod changes;
pub mod reward;
