// Reading a journal's lines and writing their answers.
#![tactic(auto)]

pub mod answer;
pub mod calls;
pub mod fault;
pub mod fields;
pub mod input;
pub mod line;
pub mod names;
pub mod output;
pub mod states;
pub mod values;
