// The function file: its fields, and records that are parts of it.
#![tactic(auto)]

pub mod fields;
pub mod lists;
pub mod reader;
pub mod records;
pub mod totals;
