// The checks of a function file, and the call that takes a file. Clauses are said of each function that the tables show; why
// stands at `Shows` in crate `function`.
#![tactic(auto)]

pub mod insts;
pub mod load;
pub mod numbers;
pub mod order;
pub mod rows;
pub mod uses;
