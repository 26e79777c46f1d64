// The tables of a function, and the checked function with its answers.
#![tactic(auto)]

pub mod answers;
pub mod fill;
pub mod function;
pub mod inst_predicates;
pub mod load;
pub mod rows;
pub mod table;
pub mod tables;
