// A subframe settled: what each cell and each group wanted, and what they were granted.

#![tactic(auto)]

mod classes;
mod grants;
mod outcome;
mod whole;

pub use outcome::{CellPowers, GroupPowers, Outcome, Power};
pub use whole::settle;
