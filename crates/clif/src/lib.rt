// What a function is made of: entities, types, opcodes, and the refusals of the product.
#![tactic(auto)]

pub mod entities;
pub mod numbers;
pub mod opcodes;
pub mod refusals;
pub mod types;
