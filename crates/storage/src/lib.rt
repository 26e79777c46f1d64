// Storage that the caller lends: growing lists, tables by number, and a reversal in place.
#![tactic(auto)]

pub mod lists;
pub mod maps;
pub mod reverse;
