// What lowering knows of a function before it begins.
#![tactic(auto)]

pub mod states;
pub mod uses;
